//! The types of a program: those that were completed, made of the last numbers of their parts.

ghost use Rattle.std.specs.Prelude.{◌≡◌, ◌++◌, List, length, map, slice_get, IfOk, OnOk};
ghost use Rattle.std.specs.Option.{option_map, option_map_or};
ghost use Rattle.porch_check.specs.Shapes.{members_of, shape_of};
ghost use Rattle.porch_check.specs.Sealing.{own_types, type_of};
ghost use Rattle.porch_shape.specs.Views.{as_shape};
ghost use Rattle.porch_sealing.specs.Numbers.{in_order, last_in};
ghost use Rattle.porch_sealing.specs.inside.Types.{member_types, types_in};

use crate::numbers::LastNumbers;
use porch_scopes::Shapes;
use porch_shape::Shape;
use porch_types::{Kind, Members, Ty};
use sqlite_items::Items;
use std::alloc::{AllocError, Global};

/// The types of a program, in the order of their last numbers. Arrays of 2^32 elements and more, and as
/// many members of a struct, count as want of memory.
pub fn last_types<'t>(
    alloc: Global,
    shapes: &Shapes<'t>,
    numbers: &LastNumbers,
) -> Result<Items<Ty>, AllocError>
    ensures { IfOk result (λ types. types ≡ own_types (in_order numbers.now shapes.now)) }
{
    let mut types = Items::new(alloc);
    put_types(alloc, shapes, numbers, numbers.as_slice(), &mut types)?;
    Ok(types)
}

/// A type of a program: what was completed under a number, made of the last numbers of its parts.
pub fn last_type<'t>(
    alloc: Global,
    shapes: &Shapes<'t>,
    numbers: &LastNumbers,
    number: u32,
) -> Result<Ty, AllocError>
    ensures { IfOk result (λ ty. ty ≡ type_of (in_order numbers.now shapes.now)
        (shape_of shapes.now number) number) }
{
    type_in(alloc, shapes, numbers, number, shapes.shape(number))
}

fn put_types<'t>(
    alloc: Global,
    shapes: &Shapes<'t>,
    numbers: &LastNumbers,
    complete: &[u32],
    types: &mut Items<Ty>,
) -> Result<(), AllocError>
    ensures { OnOk result (types.new
        ≡ types.old ++ types_in (in_order numbers.now shapes.now) complete.now) }
{
    for number in complete {
        let ty = last_type(alloc, shapes, numbers, *number)?;
        types.push(ty)?;
    }
    Ok(())
}

fn type_in<'t>(
    alloc: Global,
    shapes: &Shapes<'t>,
    numbers: &LastNumbers,
    number: u32,
    shape: &Shape,
) -> Result<Ty, AllocError>
    ensures { IfOk result (λ ty. ty ≡ type_of (in_order numbers.now shapes.now)
        (as_shape shape.now) number) }
{
    match shape {
        Shape::Whole(kind) => Ok(Ty::Whole { kind: *kind }),
        Shape::Pointer(to) => Ok(Ty::Pointer {
            to: numbers.find(*to),
        }),
        Shape::Array(of, count) => Ok(Ty::Array {
            of: numbers.find(*of),
            count: count_of(*count)?,
        }),
        Shape::Structure(_) => Ok(Ty::Struct {
            members: last_members(alloc, shapes, numbers, number)?,
        }),
        Shape::Void | Shape::Function(_, _) => Ok(Ty::Whole { kind: Kind::Int }),
    }
}

fn count_of(count: Option<u64>) -> Result<u32, AllocError>
    ensures { IfOk result (λ n. n ≡ option_map_or (λ k. k) count 0) }
{
    match count {
        None => Ok(0),
        Some(count) => match u32::try_from(count) {
            Ok(count) => Ok(count),
            Err(_) => Err(AllocError),
        },
    }
}

// The last numbers of the types of a struct's members.
fn last_members<'t>(
    alloc: Global,
    shapes: &Shapes<'t>,
    numbers: &LastNumbers,
    number: u32,
) -> Result<Members, AllocError>
    ensures { IfOk result (λ members. members
        ≡ map (last_in numbers.now) (member_types (members_of shapes.now number))) }
{
    let mut members = Vec::new(alloc);
    put_members(shapes, numbers, number, &mut members)?;
    Ok(Members::from_vec(members))
}

fn put_members<'t>(
    shapes: &Shapes<'t>,
    numbers: &LastNumbers,
    number: u32,
    members: &mut Vec<u32>,
) -> Result<(), AllocError>
    ensures { OnOk result (members.new.items ≡ members.old.items
        ++ map (last_in numbers.now) (member_types (members_of shapes.now number))) }
{
    for place in 0..usize::MAX {
        match member_type(shapes, number, place) {
            None => return Ok(()),
            Some(ty) => members.push(numbers.find(ty))?,
        }
    }
    Err(AllocError)
}

fn member_type<'t>(shapes: &Shapes<'t>, number: u32, place: usize) -> Option<u32>
    ensures { result ≡ slice_get (member_types (members_of shapes.now number)) place }
{
    match shapes.member_at(number, place) {
        Some(member) => Some(member.shape),
        None => None,
    }
}
