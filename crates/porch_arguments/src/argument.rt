//! One argument, with its place.

use porch_operands::{Form, Typed};

/// An argument: the place where it begins, and what it was found to be.
#[derive(Drop)]
pub struct Argument<'t> {
    pub at: u32,
    pub form: Form<'t>,
}

/// The value of an argument, with the place where it begins.
#[derive(Drop)]
pub struct Valued {
    pub at: u32,
    pub value: Typed,
}
