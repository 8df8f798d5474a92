//! What string literals hold: the characters that their tokens spell, and, where one is a format of `printf`,
//! what each byte of it completes and how many arguments it takes.
//!
//! Stands on porch_check for the definitions and on porch_lex for single characters. `characters` reads the
//! tokens of literals, `directive` the bytes of a format, `count` a whole format, `takes` has the kinds that
//! conversions take.
#![tactic(auto)]

pub mod characters;
pub mod count;
pub mod directive;
pub mod takes;
