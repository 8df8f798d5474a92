//! Types by their names, and types of casts and allocations.

ghost use Rattle.std.specs.Prelude.{◌≡◌, Ok, IfOk, IfErr, OnOk};
ghost use Rattle.std.specs.Option.{option_map};
ghost use Rattle.porch_check.specs.Scopes.{Scopes as Known, meaning_of};
ghost use Rattle.porch_check.specs.Declarations.{named_type as named_type_of, named_whole, sized_type as sized_type_of};
ghost use Rattle.porch_check.specs.Units.{declared_type};
ghost use Rattle.porch_scopes.specs.Known.{scopes_of};
ghost use Rattle.porch_scopes.specs.Answers.{IsRefusalOf};
ghost use Rattle.porch_names.specs.Views.{as_name};

use crate::name::{Name, is_hindered, refusal};
use porch_lex::{Rule, SourceFault};
use porch_scopes::{Meaning, Scopes};
use porch_shape::Shape;

/// The type that a name is here.
pub fn named_type<'t>(scopes: &Scopes<'t>, at: u32, name: &[u8]) -> Result<u32, SourceFault>
    ensures typed { IfOk result (λ n. named_type_of at
        (meaning_of name.now (scopes_of scopes.now)) (scopes_of scopes.now)
        ≡ Ok (n, scopes_of scopes.now)) }
    ensures refused { IfErr result (λ e. IsRefusalOf e (named_type_of at
        (meaning_of name.now (scopes_of scopes.now)) (scopes_of scopes.now))) }
{
    match scopes.meaning(name) {
        Some(Meaning::TypeName(shape)) => Ok(shape),
        Some(Meaning::Variable(_, _))
        | Some(Meaning::Global(_, _))
        | Some(Meaning::Enumerator(_))
        | Some(Meaning::Function)
        | Some(Meaning::Library(_))
        | Some(Meaning::Null)
        | None => Err(refusal(Rule::Unknown, at)),
    }
}

/// Declares a name as a type. `at` is the place of its declarator.
pub fn declare_typedef<'t>(
    scopes: &mut Scopes<'t>,
    at: u32,
    name: Option<Name<'t>>,
    shape: u32,
) -> Result<(), SourceFault>
    ensures typed { IfOk result (λ _. declared_type at (option_map as_name name.entry) shape
        (scopes_of scopes.old) ≡ Ok (shape, scopes_of scopes.new)) }
    ensures outer { OnOk result ((scopes_of scopes.new).outer ≡ (scopes_of scopes.old).outer) }
    ensures refused { IfErr result (λ e. IsRefusalOf e
        (declared_type at (option_map as_name name.entry) shape (scopes_of scopes.old))) }
{
    match name {
        None => Err(refusal(Rule::Mismatch, at)),
        Some(name) => {
            if is_hindered(scopes, name.bytes) {
                return Err(refusal(Rule::Twice, name.at));
            }
            scopes.declare(name.bytes, Meaning::TypeName(shape))?;
            Ok(())
        }
    }
}

/// The type of a cast: no array and no struct that is incomplete.
pub fn whole_type<'t>(scopes: &Scopes<'t>, at: u32, shape: u32) -> Result<u32, SourceFault>
    ensures typed { IfOk result (λ n. named_whole at shape (scopes_of scopes.now)
        ≡ Ok (n, scopes_of scopes.now)) }
    ensures refused { IfErr result
        (λ e. IsRefusalOf e (named_whole at shape (scopes_of scopes.now))) }
{
    if scopes.shapes.is_complete(shape) {
        return Ok(shape);
    }
    match scopes.shapes.shape(shape) {
        Shape::Array(_, _) | Shape::Structure(_) => Err(refusal(Rule::Mismatch, at)),
        Shape::Void | Shape::Whole(_) | Shape::Pointer(_) => Ok(shape),
        Shape::Function(_, _) => Ok(shape),
    }
}

/// The type of an allocation: one that has a size.
pub fn sized_type<'t>(scopes: &Scopes<'t>, at: u32, shape: u32) -> Result<u32, SourceFault>
    ensures typed { IfOk result (λ n. sized_type_of at shape (scopes_of scopes.now)
        ≡ Ok (n, scopes_of scopes.now)) }
    ensures refused { IfErr result
        (λ e. IsRefusalOf e (sized_type_of at shape (scopes_of scopes.now))) }
{
    if scopes.shapes.is_complete(shape) {
        Ok(shape)
    } else {
        Err(refusal(Rule::Mismatch, at))
    }
}
