//! Results of C's integer operators and conversions on whole numbers, where `long` may have 32 bits,
//! 64 bits, or either: a result that isn't the same in each such width is refused.
//!
//! The crate stands on `porch_types` for `Kind`. Start at [`apply`] and [`convert`]; the definitions
//! that their contracts cite are in `specs/Integers.antt`. No call takes memory.
#![tactic(auto)]

mod acts;
mod laws;
mod ranges;
mod reductions;
mod results;
mod widths;

pub use acts::{Act, Op};
pub use laws::{fewer_widths_agree, one_width_is_never_narrow, values_convert_to_themselves};
pub use ranges::{greatest, is_operand, is_right, is_value, least};
pub use results::{apply, complement, convert};
pub use widths::Widths;
