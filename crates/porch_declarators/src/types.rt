//! The type of a name that has parts round it.

ghost use Rattle.std.specs.Prelude.{◌≡◌, map, Ok, IfOk, IfErr, OnOk};
ghost use Rattle.porch_check.specs.Declarations.{part_at, part_type as part_type_of, type_of_parts as type_of_parts_of};
ghost use Rattle.porch_scopes.specs.Known.{scopes_of};
ghost use Rattle.porch_scopes.specs.Answers.{IsRefusalOf};
ghost use Rattle.porch_declarators.specs.Views.{as_part};

use crate::part::Part;
use porch_lex::SourceFault;
use porch_names::result_type;
use porch_scopes::{Scopes, array_type, pointer_type};
use std::alloc::Global;

/// The type of a name that has these parts round it, from the name outward, where the base is a type.
pub fn type_of_parts<'t>(
    alloc: Global,
    scopes: &mut Scopes<'t>,
    parts: &[Part<'t>],
    base: u32,
) -> Result<u32, SourceFault>
    ensures typed { IfOk result (λ n. type_of_parts_of (map as_part parts.now) base
        (scopes_of scopes.old) ≡ Ok (n, scopes_of scopes.new)) }
    ensures outer { OnOk result ((scopes_of scopes.new).outer ≡ (scopes_of scopes.old).outer) }
    ensures refused { IfErr result (λ e. IsRefusalOf e
        (type_of_parts_of (map as_part parts.now) base (scopes_of scopes.old))) }
{
    let mut shape = base;
    let mut left = parts.len();
    while left > 0 {
        left -= 1;
        shape = match part_type(alloc, scopes, &parts[left], shape) {
            Ok(next) => next,
            Err(fault) => return Err(fault),
        };
    }
    Ok(shape)
}

/// The same of a type name, where all is placed at the type name.
pub fn type_of_name<'t>(
    alloc: Global,
    scopes: &mut Scopes<'t>,
    at: u32,
    parts: &[Part<'t>],
    base: u32,
) -> Result<u32, SourceFault>
    ensures typed { IfOk result (λ n. type_of_parts_of
        (map (part_at at) (map as_part parts.now)) base (scopes_of scopes.old)
        ≡ Ok (n, scopes_of scopes.new)) }
    ensures outer { OnOk result ((scopes_of scopes.new).outer ≡ (scopes_of scopes.old).outer) }
    ensures refused { IfErr result (λ e. IsRefusalOf e
        (type_of_parts_of (map (part_at at) (map as_part parts.now)) base (scopes_of scopes.old))) }
{
    let mut shape = base;
    let mut left = parts.len();
    while left > 0 {
        left -= 1;
        shape = match part_type_at(alloc, scopes, at, &parts[left], shape) {
            Ok(next) => next,
            Err(fault) => return Err(fault),
        };
    }
    Ok(shape)
}

fn part_type<'t>(
    alloc: Global,
    scopes: &mut Scopes<'t>,
    part: &Part<'t>,
    shape: u32,
) -> Result<u32, SourceFault>
    ensures typed { IfOk result (λ n. part_type_of (as_part part.now) shape (scopes_of scopes.old)
        ≡ Ok (n, scopes_of scopes.new)) }
    ensures outer { OnOk result ((scopes_of scopes.new).outer ≡ (scopes_of scopes.old).outer) }
    ensures refused { IfErr result (λ e. IsRefusalOf e
        (part_type_of (as_part part.now) shape (scopes_of scopes.old))) }
{
    match part {
        Part::Star(at) => pointer_type(scopes, *at, shape),
        Part::Counted(at, count) => array_type(scopes, *at, shape, *count),
        Part::Listed(at, params, _) => result_type(alloc, scopes, *at, shape, params.as_slice()),
    }
}

// The same, placed elsewhere.
fn part_type_at<'t>(
    alloc: Global,
    scopes: &mut Scopes<'t>,
    at: u32,
    part: &Part<'t>,
    shape: u32,
) -> Result<u32, SourceFault>
    ensures typed { IfOk result (λ n. part_type_of (part_at at (as_part part.now)) shape
        (scopes_of scopes.old) ≡ Ok (n, scopes_of scopes.new)) }
    ensures outer { OnOk result ((scopes_of scopes.new).outer ≡ (scopes_of scopes.old).outer) }
    ensures refused { IfErr result (λ e. IsRefusalOf e
        (part_type_of (part_at at (as_part part.now)) shape (scopes_of scopes.old))) }
{
    match part {
        Part::Star(_) => pointer_type(scopes, at, shape),
        Part::Counted(_, count) => array_type(scopes, at, shape, *count),
        Part::Listed(_, params, _) => result_type(alloc, scopes, at, shape, params.as_slice()),
    }
}
