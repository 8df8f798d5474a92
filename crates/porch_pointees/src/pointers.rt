//! A pointer type to each type of a program.

ghost use Rattle.std.specs.Prelude.{◌≡◌, ◌++◌, List, length, map, IfOk, OnOk};
ghost use Rattle.porch_types.specs.declared.shapes.Ty as types;
ghost use Rattle.porch_check.specs.Sealing.{position_of, sealed_types, with_pointer, with_pointers};
ghost use Rattle.porch_sealing.specs.Numbers.{in_order};
ghost use Rattle.porch_pointees.specs.Views.{as_sealed};
ghost use Rattle.porch_pointees.specs.inside.Pointees.{own_sealed, pointee, found_at};

use porch_scopes::Shapes;
use porch_sealing::{LastNumbers, last_types};
use porch_types::Ty;
use sqlite_items::Items;
use std::alloc::{AllocError, Global};

/// The types of a program: its own, and behind them pointers to those of them that lacked one; and the
/// number of the pointer to each of its own.
#[derive(Drop)]
pub struct SealedTypes {
    pub types: Items<Ty>,
    pub pointers: Items<u32>,
}

/// The types that a program has when its text has ended. 2^32 types and more count as want of memory, as do
/// arrays of 2^32 elements and more.
pub fn sealed_types<'t>(
    alloc: Global,
    shapes: &Shapes<'t>,
    numbers: &LastNumbers,
) -> Result<SealedTypes, AllocError>
    ensures { IfOk result (λ r. as_sealed r ≡ sealed_types (in_order numbers.now shapes.now)) }
{
    let own = last_types(alloc, shapes, numbers)?;
    Ok(add_pointers(alloc, own)?)
}

fn add_pointers(alloc: Global, own: Items<Ty>) -> Result<SealedTypes, AllocError>
    ensures { IfOk result (λ r. as_sealed r
        ≡ with_pointers (length own) 0 own (own_sealed own)) }
{
    let mut sealed = SealedTypes {
        types: own,
        pointers: Items::new(alloc),
    };
    let count = number_of(sealed.types.as_slice())?;
    let pointees = pointees_of(alloc, count, sealed.types.as_slice())?;
    put_pointers(&pointees, count, &mut sealed)?;
    Ok(sealed)
}

fn number_of(types: &[Ty]) -> Result<u32, AllocError>
    ensures { IfOk result (λ n. n ≡ length types.now) }
{
    match u32::try_from(types.len()) {
        Ok(count) => Ok(count),
        Err(_) => Err(AllocError),
    }
}

// What each type points to; where it is no pointer, to how many there are.
fn pointees_of(alloc: Global, count: u32, own: &[Ty]) -> Result<LastNumbers, AllocError>
    ensures { IfOk result (λ r. r ≡ map (pointee count) own.now) }
{
    let mut pointees = LastNumbers::new(alloc);
    put_pointees(count, own, &mut pointees)?;
    Ok(pointees)
}

fn put_pointees(count: u32, own: &[Ty], pointees: &mut LastNumbers) -> Result<(), AllocError>
    ensures { OnOk result (pointees.new ≡ pointees.old ++ map (pointee count) own.now) }
{
    for ty in own {
        pointees.push(pointee_of(count, ty))?;
    }
    Ok(())
}

fn pointee_of(count: u32, ty: &Ty) -> u32
    ensures { result ≡ pointee count ty.now }
{
    match ty {
        Ty::Pointer { to } => *to,
        Ty::Whole { kind: _ } => count,
        Ty::Array { of: _, count: _ } => count,
        Ty::Struct { members: _ } => count,
    }
}

fn put_pointers(
    pointees: &LastNumbers,
    count: u32,
    sealed: &mut SealedTypes,
) -> Result<(), AllocError>
    ensures { (own : List types.Ty) → count ≡ length own → pointees.now ≡ map (pointee count) own
        → OnOk result (as_sealed sealed.new
        ≡ with_pointers count 0 own (as_sealed sealed.old)) }
{
    for to in 0..count {
        let first = first_pointer(pointees, count, to);
        put_pointer(first, to, sealed)?;
    }
    Ok(())
}

// The first of the program's own types that points to one.
fn first_pointer(pointees: &LastNumbers, count: u32, to: u32) -> Option<u32>
    ensures { result ≡ found_at count (position_of to pointees.now) }
{
    let place = pointees.find(to);
    if place < count { Some(place) } else { None }
}

fn put_pointer(first: Option<u32>, to: u32, sealed: &mut SealedTypes) -> Result<(), AllocError>
    ensures { OnOk result (as_sealed sealed.new ≡ with_pointer first to (as_sealed sealed.old)) }
{
    match first {
        Some(place) => sealed.pointers.push(place)?,
        None => {
            let place = number_of(sealed.types.as_slice())?;
            sealed.types.push(Ty::Pointer { to })?;
            sealed.pointers.push(place)?;
        }
    }
    Ok(())
}
