//! That what the typing rules accept is typed: what is proved of it so far. There is nothing to run: each function states a
//! law.
//!
//! `specs/Shapes` and `specs/States` have what holds at each place of a text and how it goes on, `specs/Ends` the program
//! that a text comes to, `specs/Forms` when what an expression was found to be has its type there, and `specs/Spelled` of
//! which trees. The proofs go node by node (`proofs/Operators`, `Nodes`, `Choices`, `Calls`, `Library`), and then by
//! induction on the tree (`proofs/Expressions`). Not yet there: initialisers, statements, functions and whole texts.
#![tactic(auto)]

pub mod laws;
