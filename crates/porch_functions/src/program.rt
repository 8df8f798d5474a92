//! What is asked of a whole text.

ghost use Rattle.std.specs.Prelude.{◌≡◌, map, nat_eq, false, codes, Ok, IfOk, MatchOption};
ghost use Rattle.std.specs.Option.{option_map_or};
ghost use Rattle.std.specs.Str.{bytes_eq};
ghost use Rattle.porch_types.specs.Kinds.{int_type};
ghost use Rattle.porch_lex.specs.declared.refusal.Rule.TheVariants.{TooLarge};
ghost use Rattle.porch_typed.specs.Views.{function_of};
ghost use Rattle.porch_typed.specs.Mirror.{Program};
ghost use Rattle.porch_check.specs.Refusals.{refuse};
ghost use Rattle.porch_check.specs.Units.{if_few_leaves, is_main as is_main_of, main_of};
ghost use Rattle.porch_scopes.specs.Known.{scopes_of};

use porch_scopes::{Scopes, Shapes};
use porch_typed::{Function, GlobalVariable};
use porch_types::INT;
use std::alloc::AllocError;

/// The most leaves that all globals may have together.
const MOST_GLOBAL_LEAVES: u64 = 4_194_304;

/// The number of `int main(void)` among the functions with a body. More than 2^32 count as want of memory.
pub fn find_main(functions: &[Function]) -> Result<Option<u32>, AllocError>
    ensures { IfOk result (λ n. n ≡ main_of (map function_of functions.now)) }
{
    for (i, function) in functions.iter().enumerate() {
        if is_main(function) {
            let number = number_of(i)?;
            return Ok(Some(number));
        }
    }
    Ok(None)
}

fn is_main_name(name: &[u8]) -> bool
    ensures { result ≡ bytes_eq (codes "main") name.now }
{
    b"main".as_slice() == name
}

fn is_int(gives: Option<u32>) -> bool
    ensures { result ≡ option_map_or (nat_eq int_type) gives false }
{
    match gives {
        Some(gives) => INT == gives,
        None => false,
    }
}

fn number_of(place: usize) -> Result<u32, AllocError>
    ensures { IfOk result (λ n. n ≡ place) }
{
    match u32::try_from(place) {
        Ok(number) => Ok(number),
        Err(_) => Err(AllocError),
    }
}

fn is_main(function: &Function) -> bool
    ensures { result ≡ is_main_of (function_of function.now) }
{
    is_main_name(function.name.as_slice()) && function.params == 0 && is_int(function.result)
}

/// The entry with which the leaves of all globals are too many, where they are.
pub fn first_too_many<'t>(scopes: &Scopes<'t>) -> Option<u32>
    ensures { MatchOption result
        ((p : Program) → if_few_leaves (scopes_of scopes.now).shapes
        (scopes_of scopes.now).globals (scopes_of scopes.now).entries 0 (Ok p) ≡ Ok p)
        (λ at. (p : Program) → if_few_leaves (scopes_of scopes.now).shapes
        (scopes_of scopes.now).globals (scopes_of scopes.now).entries 0 (Ok p)
        ≡ refuse TooLarge at) }
{
    too_many(
        &scopes.shapes,
        scopes.globals.as_slice(),
        scopes.entries.as_slice(),
    )
}

fn too_many<'t>(shapes: &Shapes<'t>, globals: &[GlobalVariable], entries: &[u32]) -> Option<u32>
    ensures { MatchOption result
        ((p : Program) → if_few_leaves shapes.now globals.now entries.now 0 (Ok p) ≡ Ok p)
        (λ at. (p : Program) → if_few_leaves shapes.now globals.now entries.now 0 (Ok p)
        ≡ refuse TooLarge at) }
{
    let mut before: u64 = 0;
    let mut i: usize = 0;
    while i < globals.len() && i < entries.len() {
        let leaves = before.saturating_add(shapes.size(globals[i].ty));
        if leaves > MOST_GLOBAL_LEAVES {
            return Some(entries[i]);
        }
        before = leaves;
        i += 1;
    }
    None
}
