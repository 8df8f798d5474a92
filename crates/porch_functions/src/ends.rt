//! What follows the body of a function.

ghost use Rattle.std.specs.Prelude.{◌≡◌, ◌∷◌, OnOk};
ghost use Rattle.porch_typed.specs.Views.{function_of};
ghost use Rattle.porch_check.specs.Scopes.{Scopes as Known, left};
ghost use Rattle.porch_check.specs.Units.{with_definition};
ghost use Rattle.porch_scopes.specs.Known.{scopes_of};

use porch_scopes::Scopes;
use porch_typed::Function;
use sqlite_items::Items;
use std::alloc::{AllocError, Global};

/// Leaves the scope of the parameters, and puts the function behind the others.
pub fn end_body<'t>(
    alloc: Global,
    scopes: &mut Scopes<'t>,
    function: Function,
) -> Result<(), AllocError>
    ensures { OnOk result ((before : Known) → (scopes_of scopes.old).outer
        ≡ before.inner ∷ before.outer → scopes_of scopes.new
        ≡ with_definition (function_of function) (left before (scopes_of scopes.old))) }
{
    let _ = scopes.leave();
    scopes.variables = Items::new(alloc);
    scopes.functions.push(function)?;
    Ok(())
}
