//! The tree of a source text: its words, its types, what it is as plain data and as tokens, and the
//! grammar as definitions.
//!
//! `word.rt` has the words that tokens are, `tree.rt` the tree as the code has it. `specs/Mirror`
//! has the tree as plain data, which every definition goes over, and `specs/Grammar` says which
//! tokens are a unit, and which place is the first that is wrong. No function here has a body to
//! run: `worked.rt` states what the definitions say of some small units, and the check computes it.
#![tactic(auto)]

pub mod tree;
pub mod word;
pub mod worked;

pub use tree::{
    Assigning, Base, Bracket, Constant, Consts, Core, Declaration, Declarator, Definition, Entry,
    Expr, Field, Infix, Initial, Item, Level, Name, Param, Prefix, Stmt, Suffix, SwitchEntry,
    TagSort, Tree, TypeName,
};
pub use word::{Keyword, Mark, Word};
