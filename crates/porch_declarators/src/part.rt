//! What stands round a declared name.

ghost use Rattle.std.specs.Prelude.{◌≡◌, ◌++◌, map, Ok, IfOk, IfErr, OnOk};
ghost use Rattle.porch_check.specs.Declarations.{stars_of};
ghost use Rattle.porch_scopes.specs.Answers.{IsRefusalOf};
ghost use Rattle.porch_declarators.specs.Views.{as_part};
ghost use Rattle.porch_declarators.specs.Counts.{count_at};

use porch_lex::{Rule, SourceFault};
use porch_names::{Parameter, refusal};
use porch_scopes::Scope;
use std::alloc::AllocError;

/// A part of a declarator, with the place of that.
#[derive(Drop)]
pub enum Part<'t> {
    /// A pointer.
    Star(u32),
    /// An array, with its count where it has one.
    Counted(u32, Option<u64>),
    /// A parameter list, with the scope at its end.
    Listed(u32, Vec<Parameter<'t>>, Scope<'t>),
}

/// Puts the stars of a declarator behind what stands nearer to its name.
pub fn put_stars<'t>(at: u32, stars: &[u32], parts: &mut Vec<Part<'t>>) -> Result<(), AllocError>
    ensures { OnOk result (map as_part parts.new.items
        ≡ map as_part parts.old.items ++ stars_of at stars.now) }
{
    for _star in stars {
        parts.push(Part::Star(at))?;
    }
    Ok(())
}

/// The count of an array, from its constant: at least 1. A constant past 2^64 counts as want of memory.
pub fn count_from(at: u32, constant: i128) -> Result<u64, SourceFault>
    ensures counted { IfOk result (λ n. count_at at constant ≡ Ok n) }
    ensures refused { IfErr result (λ e. IsRefusalOf e (count_at at constant)) }
{
    if constant < 1 {
        return Err(refusal(Rule::Mismatch, at));
    }
    match u64::try_from(constant) {
        Ok(count) => Ok(count),
        Err(_) => Err(SourceFault::NoMemory),
    }
}
