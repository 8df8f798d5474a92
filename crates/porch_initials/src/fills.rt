//! What literals fill.

ghost use Rattle.std.specs.Prelude.{◌≡◌};
ghost use Rattle.porch_check.specs.Initialisers.{fits_in as fits_in_shape, is_char_array as is_char_array_shape};
ghost use Rattle.porch_shape.specs.Views.{as_shape};

use porch_shape::Shape;
use porch_types::Kind;

/// Whether a type is an array of char.
pub fn is_char_array(shape: &Shape) -> bool
    ensures { result ≡ is_char_array_shape (as_shape shape.now) }
{
    match shape {
        Shape::Array(of, _) => *of == Kind::Char.number(),
        Shape::Void | Shape::Whole(_) | Shape::Pointer(_) => false,
        Shape::Structure(_) | Shape::Function(_, _) => false,
    }
}

/// Whether an array has room for a literal's bytes. Their 0 is left off where it has none for that.
pub fn fits_in(shape: &Shape, bytes: &[u8]) -> bool
    ensures { result ≡ fits_in_shape (as_shape shape.now) bytes.now }
{
    match shape {
        Shape::Array(_, Some(count)) => bytes.len() as u64 <= *count,
        Shape::Array(_, None) => true,
        Shape::Void | Shape::Whole(_) | Shape::Pointer(_) => true,
        Shape::Structure(_) | Shape::Function(_, _) => true,
    }
}
