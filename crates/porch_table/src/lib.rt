//! The types of a text while it is read, as the typing rules of expressions ask for them: `Known` is the
//! `Scopes` of porch_scopes as a `Table` of porch_operands. Stands on these two.
#![tactic(auto)]

ghost use Rattle.std.specs.Prelude.{◌≡◌};
ghost use Rattle.std.specs.Option.{option_map};
ghost use Rattle.porch_check.specs.Shapes.{members_of, shape_of};
ghost use Rattle.porch_check.specs.Operators.{member_named};
ghost use Rattle.porch_operands.specs.Views.{IsOfClass, as_member};
ghost use Rattle.porch_shape.specs.Views.{as_shape};

use porch_operands::{Class, Member, Table};
use porch_scopes::{Scopes, Shapes};
use porch_shape::Shape;
use std::alloc::AllocError;

/// What is known at a place of the text. Declarations change the scopes within it.
#[derive(Drop)]
pub struct Known<'t> {
    pub scopes: Scopes<'t>,
}

impl<'t> Table for Known<'t> {
    ghost use Rattle.porch_scopes.specs.Known.{scopes_of};

    ghost scopes = { λ k. scopes_of k.scopes };

    fn class(&self, shape: u32) -> Class {
        class_in(&self.scopes.shapes, shape)
    }

    fn is_complete(&self, shape: u32) -> bool {
        self.scopes.shapes.is_complete(shape)
    }

    fn member(&self, structure: u32, name: &[u8]) -> Option<Member> {
        member_in(&self.scopes.shapes, structure, name)
    }

    fn pointer_to(&mut self, to: u32) -> Result<u32, AllocError> {
        self.scopes.pointer(to)
    }
}

fn class_in<'t>(shapes: &Shapes<'t>, shape: u32) -> Class
    ensures { IsOfClass (shape_of shapes.now shape) result }
{
    class_of(shapes.shape(shape))
}

fn class_of(shape: &Shape) -> Class
    ensures { IsOfClass (as_shape shape.now) result }
{
    match shape {
        Shape::Void => Class::Void,
        Shape::Whole(kind) => Class::Whole(*kind),
        Shape::Pointer(to) => Class::Pointer(*to),
        Shape::Array(of, _) => Class::Array(*of),
        Shape::Structure(_) => Class::Structure,
        Shape::Function(_, _) => Class::Function,
    }
}

// A member begins within as many leaves as a type may have, so its first leaf has room in 32 bits.
fn member_in<'t>(shapes: &Shapes<'t>, structure: u32, name: &[u8]) -> Option<Member>
    ensures { option_map (as_member name.now) result
        ≡ member_named name.now (members_of shapes.now structure) }
{
    match shapes.member(structure, name) {
        None => None,
        Some(member) => Some(Member {
            shape: member.shape,
            leaf: member.leaf as u32,
        }),
    }
}
