//! That a typed program and its flat program mean the same: what is proved of it so far. There is nothing to run: each
//! function states a law.
//!
//! `specs/Beside` has the store of the flat run beside that of the source, and `specs/Laws` what is the same in both. The
//! rest is lemmas, in the order of `proofs/Lib`: runs with their marks, what it means that code follows an evaluation
//! (`proofs/Codes`), and single forms, each with its parts as hypotheses. `proofs/Lowered` has what the induction over
//! expressions says of one, and `proofs/Located` what it says of a place. Its cases stand in `proofs/Cases`, `PlaceCases`,
//! `MoreCases`, `Logic`, `Constants`, `Assigned`, `Pointed`, `Structs`, `MemberCases` and `Blocks`; `proofs/Composed` puts
//! some together. Not yet there: `op=`, `++` and `--`, calls, counts of allocations, output, and statements; and the
//! induction.
#![tactic(auto)]

pub mod laws;
