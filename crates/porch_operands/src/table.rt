//! What the rules ask of the types of the text.

use porch_types::Kind;
use std::alloc::AllocError;

/// What a type is, what a function takes and how many elements an array has apart.
#[derive(Clone, Copy, Debug, PartialEq, Eq)]
pub enum Class {
    Void,
    Whole(Kind),
    /// A pointer to a type.
    Pointer(u32),
    /// An array of a type.
    Array(u32),
    Structure,
    Function,
}

/// A member of a struct: its type, and its first leaf in the struct.
#[derive(Clone, Copy, Debug, PartialEq, Eq)]
pub struct Member {
    pub shape: u32,
    pub leaf: u32,
}

/// The types of a text while it is read, by their numbers.
pub trait Table {
    ghost use Rattle.std.specs.Prelude.{◌≡◌, IfOk};
    ghost use Rattle.std.specs.Option.{option_map};
    ghost use Rattle.porch_check.specs.Shapes.{is_complete, members_of, pointer, shape_of};
    ghost use Rattle.porch_check.specs.Scopes.{Scopes, with_shape};
    ghost use Rattle.porch_check.specs.Operators.{member_named};
    ghost use Rattle.porch_operands.specs.Views.{as_member, IsOfClass};

    /// What is known at this place of the text.
    ghost scopes: { Self → Scopes };

    /// What the type of a number is. Without one it is void.
    fn class(&self, shape: u32) -> Class
        ensures { IsOfClass (shape_of (scopes self.now).shapes shape) result };

    /// Whether the type of a number is complete.
    fn is_complete(&self, shape: u32) -> bool
        ensures { result ≡ is_complete (scopes self.now).shapes shape };

    /// The first member of a name in a struct that is complete.
    fn member(&self, structure: u32, name: &[u8]) -> Option<Member>
        ensures { option_map (as_member name.now) result
            ≡ member_named name.now (members_of (scopes self.now).shapes structure) };

    /// The number of the pointer type to a type, which may be a new one.
    fn pointer_to(&mut self, to: u32) -> Result<u32, AllocError>
        ensures { IfOk result (λ n.
            with_shape (pointer to) (scopes self.old) ≡ (n, scopes self.new)) };
}
