//! Objects: globals in the scope of the file, and variables of a function in any other.

ghost use Rattle.std.specs.Prelude.{◌≡◌, ◌∷◌, ◌++◌, [], ◌<◌, length, List, ℕ, if◌then◌else◌, is_some, Option, IfOk, IfErr, OnOk};
ghost use Rattle.porch_tree.specs.Mirror.{Initial};
ghost use Rattle.porch_check.specs.Shapes.{shape_of};
ghost use Rattle.porch_check.specs.Scopes.{is_file};
ghost use Rattle.porch_check.specs.Statements.{begun_global, begun_variable, declared_object, global_as, is_object as is_object_of, variable_as, with_global, with_variable};
ghost use Rattle.porch_scopes.specs.Known.{scopes_of};
ghost use Rattle.porch_scopes.specs.Answers.{IsRefusalOf};
ghost use Rattle.porch_names.specs.Views.{as_name};

use crate::name::{Name, is_hindered, refusal};
use porch_lex::{Rule, SourceFault};
use porch_scopes::{Meaning, Scopes};
use porch_shape::Shape;
use porch_typed::{Fill, GlobalVariable};
use sqlite_items::Items;
use std::alloc::{AllocError, Global};

/// Whether a type may be that of an object: it is complete, or an array that its initialiser completes.
pub fn is_object<'t>(scopes: &Scopes<'t>, shape: u32, begun: bool) -> bool
    ensures { result ≡ is_object_of (shape_of (scopes_of scopes.now).shapes shape) shape begun
        (scopes_of scopes.now) }
{
    match scopes.shapes.shape(shape) {
        Shape::Array(_, None) => begun,
        Shape::Array(_, Some(_)) => scopes.shapes.is_complete(shape),
        Shape::Void | Shape::Whole(_) | Shape::Pointer(_) => { scopes.shapes.is_complete(shape) }
        Shape::Structure(_) | Shape::Function(_, _) => scopes.shapes.is_complete(shape),
    }
}

/// Declares an object, behind its declarator and in front of its initialiser, if it has one, and answers
/// its number. More than 2^32 objects count as want of memory.
pub fn declare_object<'t>(
    alloc: Global,
    scopes: &mut Scopes<'t>,
    at: u32,
    name: Name<'t>,
    shape: u32,
    begun: bool,
) -> Result<u32, SourceFault>
    ensures declared { IfOk result (λ k. (bodies : List (List ℕ)) (i : Option Initial) →
        is_some i ≡ begun →
        declared_object bodies at (as_name name.entry) shape i (scopes_of scopes.old) ≡
        (if is_file (scopes_of scopes.old)
        then begun_global bodies (as_name name.entry) k shape i (scopes_of scopes.new)
        else begun_variable bodies (as_name name.entry) k shape i (scopes_of scopes.new))) }
    ensures outer { OnOk result ((scopes_of scopes.new).outer ≡ (scopes_of scopes.old).outer) }
    ensures refused { IfErr result (λ e. (bodies : List (List ℕ)) (i : Option Initial) →
        is_some i ≡ begun → IsRefusalOf e
        (declared_object bodies at (as_name name.entry) shape i (scopes_of scopes.old))) }
{
    if is_hindered(scopes, name.bytes) {
        return Err(refusal(Rule::Twice, name.at));
    }
    if !is_object(scopes, shape, begun) {
        return Err(refusal(Rule::Mismatch, at));
    }
    if scopes.is_file() {
        Ok(declare_global(alloc, scopes, at, name, shape)?)
    } else {
        Ok(declare_variable(scopes, name, shape)?)
    }
}

// A global that nothing is said to begin with.
fn declare_global<'t>(
    alloc: Global,
    scopes: &mut Scopes<'t>,
    at: u32,
    name: Name<'t>,
    shape: u32,
) -> Result<u32, AllocError>
    ensures number { IfOk result (λ n. n ≡ length (scopes_of scopes.old).globals) }
    ensures declared { OnOk result (scopes_of scopes.new
        ≡ with_global at (as_name name.entry) shape (scopes_of scopes.old)) }
{
    let number = match u32::try_from(scopes.globals.len()) {
        Ok(number) => number,
        Err(_) => return Err(AllocError),
    };
    scopes.globals.push(GlobalVariable {
        ty: shape,
        fills: Items::new(alloc),
    })?;
    scopes.entries.push(at)?;
    scopes.declare(name.bytes, Meaning::Global(number, shape))?;
    Ok(number)
}

// A variable that has just been declared at the place of its name.
fn declare_variable<'t>(
    scopes: &mut Scopes<'t>,
    name: Name<'t>,
    shape: u32,
) -> Result<u32, AllocError>
    ensures number { IfOk result (λ n. n ≡ length (scopes_of scopes.old).variables) }
    ensures declared { OnOk result (scopes_of scopes.new
        ≡ with_variable (as_name name.entry) shape (scopes_of scopes.old)) }
{
    scopes.variable(name.bytes, shape)
}

/// Gives a variable the type that its initialiser gave it.
pub fn retype_variable<'t>(
    scopes: &mut Scopes<'t>,
    name: Name<'t>,
    number: u32,
    shape: u32,
) -> Result<(), AllocError>
    requires there { number < length (scopes_of scopes.old).variables }
    ensures typed { OnOk result (scopes_of scopes.new
        ≡ variable_as (as_name name.entry) number shape (scopes_of scopes.old)) }
    ensures outer { OnOk result ((scopes_of scopes.new).outer ≡ (scopes_of scopes.old).outer) }
{
    scopes.variables.set(number as usize, shape);
    scopes.declare(name.bytes, Meaning::Variable(number, shape))
}

/// Gives a global the type that its initialiser gave it, and what its leaves begin with.
pub fn retype_global<'t>(
    scopes: &mut Scopes<'t>,
    name: Name<'t>,
    number: u32,
    shape: u32,
    fills: Items<(u32, Fill)>,
) -> Result<(), AllocError>
    requires there { number < length (scopes_of scopes.old).globals }
    ensures typed { OnOk result (scopes_of scopes.new
        ≡ global_as (as_name name.entry) number shape fills (scopes_of scopes.old)) }
    ensures outer { OnOk result ((scopes_of scopes.new).outer ≡ (scopes_of scopes.old).outer) }
{
    scopes
        .globals
        .set(number as usize, GlobalVariable { ty: shape, fills });
    scopes.declare(name.bytes, Meaning::Global(number, shape))
}
