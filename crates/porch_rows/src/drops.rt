//! Trees that are let go. A function that owns one at several exits would take its parts away at each of
//! them; by a call of these it is done in one place.

use porch_typed::{Expression, Place};

/// Lets go of a tree.
pub fn drop_tree(_tree: Expression) {}

/// Lets go of a place.
pub fn drop_place(_place: Place) {}
