//! The words of the command line, and what they order.
//!
//! `read_words` is the one call. `order` has what it answers, `command` and `option` how commands and
//! options are spelled, `value` their values, and `read` goes over the words. The rules, as definitions, are
//! `specs/Words`. The crate stands on porch_values for the widths and porch_session for the limits.
#![tactic(auto)]

mod command;
mod given;
mod option;
mod order;
mod read;
mod value;

pub use order::{Order, Usage};
pub use read::read_words;
