//! Types that are made of others.

ghost use Rattle.std.specs.Prelude.{◌≡◌, Ok, IfOk, IfErr, OnOk};
ghost use Rattle.porch_check.specs.Declarations.{pointer_type, array_type};
ghost use Rattle.porch_lex.specs.declared.refusal.SourceFault.TheVariants as fault;
ghost use Rattle.porch_scopes.specs.Known.{scopes_of};
ghost use Rattle.porch_scopes.specs.Answers.{IsRefusalOf};

use crate::scopes::Scopes;
use porch_lex::{Refusal, Rule, SourceFault};

/// A rule is broken at a place.
pub(crate) fn refusal(rule: Rule, at: u32) -> SourceFault
    ensures { result ≡ fault.Refused (record { at = at; rule = rule }) }
{
    SourceFault::Refused(Refusal { at, rule })
}

/// The number of the pointer to a type, which is complete some time.
pub fn pointer_type<'t>(scopes: &mut Scopes<'t>, at: u32, to: u32) -> Result<u32, SourceFault>
    ensures typed { IfOk result (λ n. pointer_type at to (scopes_of scopes.old)
        ≡ Ok (n, scopes_of scopes.new)) }
    ensures outer { OnOk result ((scopes_of scopes.new).outer ≡ (scopes_of scopes.old).outer) }
    ensures refused { IfErr result
        (λ e. IsRefusalOf e (pointer_type at to (scopes_of scopes.old))) }
{
    if scopes.shapes.is_ever_complete(to) {
        Ok(scopes.pointer(to)?)
    } else {
        Err(refusal(Rule::Mismatch, at))
    }
}

/// The number of an array of a complete type, which has at most 1,048,576 leaves.
pub fn array_type<'t>(
    scopes: &mut Scopes<'t>,
    at: u32,
    of: u32,
    count: Option<u64>,
) -> Result<u32, SourceFault>
    ensures typed { IfOk result (λ n. array_type at of count (scopes_of scopes.old)
        ≡ Ok (n, scopes_of scopes.new)) }
    ensures outer { OnOk result ((scopes_of scopes.new).outer ≡ (scopes_of scopes.old).outer) }
    ensures refused { IfErr result
        (λ e. IsRefusalOf e (array_type at of count (scopes_of scopes.old))) }
{
    if !scopes.shapes.is_complete(of) {
        return Err(refusal(Rule::Mismatch, at));
    }
    if !scopes.shapes.is_small_array(of, count) {
        return Err(refusal(Rule::TooLarge, at));
    }
    Ok(scopes.array(of, count)?)
}
