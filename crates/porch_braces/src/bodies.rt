//! The names of the functions that have a body.

ghost use Rattle.std.specs.Prelude.{◌≡◌, IfOk, map};
ghost use Rattle.porch_tree.specs.Views.{core_of, declarator_of, unit_of};
ghost use Rattle.porch_check.specs.Units.{bodies_of as bodies_in, core_name, declarator_name};

use porch_names::name_in;
use porch_scopes::Bodies;
use porch_tree::tree::{Core, Declarator, Item, Tree};
use std::alloc::{AllocError, Global};

/// The names of the functions that have a body, in the order of the bodies.
pub fn bodies_of<'t>(alloc: Global, text: &'t [u8], tree: &Tree) -> Result<Bodies<'t>, AllocError>
    ensures { IfOk result (λ bodies. bodies ≡ bodies_in (unit_of text.now tree.now)) }
{
    let mut bodies = Bodies::new(alloc);
    for item in tree.items.as_slice() {
        if let Item::Function(function) = item {
            bodies.push(name_of_declarator(text, &function.declarator))?;
        }
    }
    Ok(bodies)
}

// The name that a declarator is about. Without one it has no bytes.
#[cycle(name)]
fn name_of_declarator<'t>(text: &'t [u8], declarator: &Declarator) -> &'t [u8]
    ensures { result.now ≡ declarator_name (declarator_of text.now declarator.now) }
{
    name_of_core(text, &declarator.core)
}

#[cycle(name)]
fn name_of_core<'t>(text: &'t [u8], core: &Core) -> &'t [u8]
    ensures { result.now ≡ core_name (core_of text.now core.now) }
{
    match core {
        Core::Lacking => &[],
        Core::Named(name) => name_in(text, *name).bytes,
        Core::Inner { at: _, declarator } => name_of_declarator(text, declarator.get()),
    }
}
