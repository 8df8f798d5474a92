//! The first wrong token of a source text: a walk along its tokens with what may still be to come,
//! which builds no tree.
//!
//! `first_wrong` is the one call, and `wrong` has what it answers. `specs/Walk` has the walk as a
//! definition, `laws` what it says of the units of the grammar, and `worked` some small texts. `symbol` has
//! what may still be to come, `step` what each symbol does with a word, `advance` what all that is pending
//! does with one, `stage` where a walk stands, and `along` goes over the tokens.
#![tactic(auto)]

mod advance;
mod along;
pub mod laws;
pub mod level;
mod stage;
mod step;
pub mod symbol;
pub mod token_walk;
pub mod worked;
pub mod wrong;

pub use along::first_wrong;
pub use level::{Level, Reading, Step, Taken};
pub use step::{assigning as is_assigning, infix as is_infix, is as is_word, kinds_with};
pub use symbol::{Kinds, Mode, Naming, Symbol};
pub use token_walk::TokenWalk;
pub use wrong::{WalkFault, WrongToken};
