//! Members of structs, and the end of a struct's braces.

ghost use Rattle.std.specs.Prelude.{◌≡◌, Some, Ok, IfOk, IfErr, OnOk};
ghost use Rattle.porch_check.specs.Shapes.{shape_of, structure};
ghost use Rattle.porch_check.specs.Declarations.{declared_member, end_struct};
ghost use Rattle.porch_scopes.specs.Known.{scopes_of};
ghost use Rattle.porch_scopes.specs.Answers.{IsRefusalOf};

use crate::members::Members;
use crate::scopes::Scopes;
use crate::shapes::MOST_LEAVES;
use crate::types::refusal;
use porch_lex::{Rule, SourceFault};

/// Declares a member of a complete type, by its declarator's place and its name.
pub fn declare_member<'t>(
    scopes: &Scopes<'t>,
    at: u32,
    name_at: u32,
    name: &'t [u8],
    shape: u32,
    members: &mut Members<'t>,
) -> Result<(), SourceFault>
    ensures typed { IfOk result (λ _. declared_member at (Some
        (record { at = name_at; bytes = name.now })) shape
        members.old (scopes_of scopes.now) ≡ Ok (members.new, scopes_of scopes.now)) }
    ensures refused { IfErr result (λ e. IsRefusalOf e (declared_member at
        (Some (record { at = name_at; bytes = name.now })) shape
        members.old (scopes_of scopes.now))) }
{
    if members.contains(name) {
        return Err(refusal(Rule::Twice, name_at));
    }
    if !scopes.shapes.is_complete(shape) {
        return Err(refusal(Rule::Mismatch, at));
    }
    let leaves = scopes.shapes.size(shape);
    members.push(name, shape, leaves)?;
    Ok(())
}

/// Completes a struct by its members, which have at most 1,048,576 leaves.
pub fn end_struct<'t>(
    scopes: &mut Scopes<'t>,
    at: u32,
    shape: u32,
    members: Members<'t>,
) -> Result<u32, SourceFault>
    requires structure { shape_of (scopes_of scopes.old).shapes shape ≡ structure shape }
    ensures typed { IfOk result (λ n. end_struct at shape members.entry (scopes_of scopes.old)
        ≡ Ok (n, scopes_of scopes.new)) }
    ensures outer { OnOk result ((scopes_of scopes.new).outer ≡ (scopes_of scopes.old).outer) }
    ensures refused { IfErr result
        (λ e. IsRefusalOf e (end_struct at shape members.entry (scopes_of scopes.old))) }
{
    if members.leaves() > MOST_LEAVES {
        return Err(refusal(Rule::TooLarge, at));
    }
    scopes.shapes.complete(shape, members)?;
    Ok(shape)
}
