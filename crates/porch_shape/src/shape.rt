//! A type, which names those that it is made of by their numbers.

ghost use Rattle.std.specs.Prelude.{◌≡◌};
ghost use Rattle.porch_check.specs.Shapes.{count_eq, shape_eq};
ghost use Rattle.porch_shape.specs.Views.{as_shape};

use porch_types::Kind;

/// A type while a text is read, where a struct's may still be incomplete.
#[derive(Debug, Drop)]
pub enum Shape {
    Void,
    Whole(Kind),
    /// A pointer to a type.
    Pointer(u32),
    /// An array of a type. Without a count it is incomplete.
    Array(u32, Option<u64>),
    /// A struct, by its own number: each declaration of a tag makes another one.
    Structure(u32),
    /// A function: its result, and its parameters.
    Function(u32, Vec<u32>),
}

impl Shape {
    /// Whether two types are one.
    pub fn is(&self, other: &Shape) -> bool
        ensures { result ≡ shape_eq (as_shape self.now) (as_shape other.now) }
    {
        match (self, other) {
            (Shape::Void, Shape::Void) => true,
            (Shape::Whole(a), Shape::Whole(b)) => a.number() == b.number(),
            (Shape::Pointer(a), Shape::Pointer(b)) => *a == *b,
            (Shape::Array(a, m), Shape::Array(b, n)) => *a == *b && is_count(*m, *n),
            (Shape::Structure(a), Shape::Structure(b)) => *a == *b,
            (Shape::Function(a, ps), Shape::Function(b, qs)) => *a == *b
                && ps.as_slice() == qs.as_slice(),
            _ => false,
        }
    }
}

fn is_count(a: Option<u64>, b: Option<u64>) -> bool
    ensures { result ≡ count_eq a b }
{
    match (a, b) {
        (None, None) => true,
        (Some(a), Some(b)) => a == b,
        _ => false,
    }
}
