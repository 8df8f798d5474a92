//! An aggregate whose elements are being given.

ghost use Rattle.std.specs.Prelude.{◌≡◌, ◌==◌, ◌+◌, ◌*◌, ℕ, if◌then◌else◌, Some, None, IfOk};
ghost use Rattle.std.specs.Option.{option_map};
ghost use Rattle.porch_check.specs.Shapes.{shape_of, size_of};
ghost use Rattle.porch_check.specs.Initialisers.{element as element_of, is_aggregate as is_aggregate_shape};
ghost use Rattle.porch_shape.specs.Views.{as_shape};
ghost use Rattle.porch_scopes.specs.Views.{as_place};
ghost use Rattle.porch_initials.specs.Views.{as_opened, as_pair};

use porch_scopes::{Member, Shapes};
use porch_shape::Shape;
use std::alloc::AllocError;

/// An aggregate whose elements are being given: its type, the next one's number, and its own first leaf.
#[derive(Clone, Copy, Debug)]
pub struct Opened {
    pub shape: u32,
    pub next: u64,
    pub leaf: u64,
}

/// A part of an object: its type, and its first leaf.
#[derive(Clone, Copy, Debug)]
pub struct Element {
    pub shape: u32,
    pub leaf: u64,
}

/// Whether a type is an array or a struct.
pub fn is_aggregate(shape: &Shape) -> bool
    ensures { result ≡ is_aggregate_shape (as_shape shape.now) }
{
    match shape {
        Shape::Array(_, _) | Shape::Structure(_) => true,
        Shape::Void | Shape::Whole(_) | Shape::Pointer(_) => false,
        Shape::Function(_, _) => false,
    }
}

/// The next element, if there is one. A scalar is the one element of itself. A leaf past 2^64 counts as want
/// of memory.
pub(crate) fn next_element<'t>(
    shapes: &Shapes<'t>,
    opened: Opened,
) -> Result<Option<Element>, AllocError>
    ensures { IfOk result (λ e. option_map as_pair e ≡ element_of shapes.now
        (shape_of shapes.now opened.shape) (as_opened opened)) }
{
    match shapes.shape(opened.shape) {
        Shape::Array(of, Some(count)) => {
            if opened.next < *count {
                Ok(Some(element_at(shapes, opened, *of)?))
            } else {
                Ok(None)
            }
        }
        Shape::Array(of, None) => Ok(Some(element_at(shapes, opened, *of)?)),
        Shape::Structure(_) => {
            member_part(
                opened.leaf,
                shapes.member_at(opened.shape, opened.next as usize),
            )
        }
        Shape::Void | Shape::Whole(_) | Shape::Pointer(_) => Ok(itself(opened)),
        Shape::Function(_, _) => Ok(itself(opened)),
    }
}

fn itself(opened: Opened) -> Option<Element>
    ensures { option_map as_pair result
        ≡ (if opened.next == 0 then Some (opened.shape, opened.leaf) else None) }
{
    if opened.next == 0 {
        Some(Element {
            shape: opened.shape,
            leaf: opened.leaf,
        })
    } else {
        None
    }
}

fn element_at<'t>(shapes: &Shapes<'t>, opened: Opened, of: u32) -> Result<Element, AllocError>
    ensures { IfOk result (λ e. as_pair e
        ≡ (of, opened.leaf + opened.next * size_of shapes.now of)) }
{
    let leaves = match opened.next.checked_mul(shapes.size(of)) {
        Some(leaves) => leaves,
        None => return Err(AllocError),
    };
    match opened.leaf.checked_add(leaves) {
        Some(leaf) => Ok(Element { shape: of, leaf }),
        None => Err(AllocError),
    }
}

fn member_part(leaf: u64, member: Option<Member>) -> Result<Option<Element>, AllocError>
    ensures { IfOk result (λ e. option_map as_pair e
        ≡ option_map (λ (m : ℕ × ℕ). (m.0, leaf + m.1)) (option_map as_place member)) }
{
    match member {
        None => Ok(None),
        Some(member) => match leaf.checked_add(member.leaf) {
            Some(leaf) => Ok(Some(Element {
                shape: member.shape,
                leaf,
            })),
            None => Err(AllocError),
        },
    }
}
