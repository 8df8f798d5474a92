//! The byte machine does what the flat abstract machine does.
//!
//! Start at `specs/Follows`, which says when a machine stands for a state, and what a step of both comes to. `specs/Placed`
//! says where the objects of a state lie in memory, and `specs/Leaves` what a write to one of their leaves does. The
//! functions are laws, and have nothing to run.
#![tactic(auto)]

mod laws;

pub use laws::{
    a_state_is_stood_for, changed_leaves_stand, other_leaves_stay, steps_follow,
    valid_programs_have_types, written_leaves_are_read,
};
