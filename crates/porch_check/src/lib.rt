//! The typing rules: definitions that give the typed program of a source text's tree, or the first rule that it breaks.
#![tactic(auto)]

pub mod worked;
