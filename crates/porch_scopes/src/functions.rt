//! Declarations of functions: any number, each of the type of the first one in the text.

ghost use Rattle.std.specs.Prelude.{◌≡◌, Ok, IfOk, IfErr, OnOk};
ghost use Rattle.porch_check.specs.Statements.{declared_function, with_function, with_first_type};
ghost use Rattle.porch_check.specs.Scopes.{hindrance, of_name};
ghost use Rattle.porch_scopes.specs.Known.{scopes_of};
ghost use Rattle.porch_scopes.specs.Answers.{IsRefusalOf};

use crate::meaning::Meaning;
use crate::scopes::Scopes;
use porch_lex::{Refusal, Rule, SourceFault};

/// Declares a function of a type at a place of the text, once more or for the first time.
pub fn declare_function<'t>(
    scopes: &mut Scopes<'t>,
    at: u32,
    name: &'t [u8],
    shape: u32,
) -> Result<(), SourceFault>
    ensures declared { IfOk result (λ _. declared_function
        (record { at = at; bytes = name.now }) shape
        (scopes_of scopes.old) ≡ Ok (shape, scopes_of scopes.new)) }
    ensures outer { OnOk result ((scopes_of scopes.new).outer ≡ (scopes_of scopes.old).outer) }
    ensures refused { IfErr result (λ e. IsRefusalOf e
        (declared_function (record { at = at; bytes = name.now }) shape (scopes_of scopes.old))) }
{
    declare_name(scopes, at, name)?;
    declare_type(scopes, at, name, shape)
}

// Its name is one of this scope's, which may be declared again as a function.
fn declare_name<'t>(scopes: &mut Scopes<'t>, at: u32, name: &'t [u8]) -> Result<(), SourceFault>
    ensures declared { IfOk result (λ _. with_function (record { at = at; bytes = name.now })
        (hindrance name.now (scopes_of scopes.old)) (scopes_of scopes.old)
        ≡ Ok (0, scopes_of scopes.new)) }
    ensures outer { OnOk result ((scopes_of scopes.new).outer ≡ (scopes_of scopes.old).outer) }
    ensures refused { IfErr result (λ e. IsRefusalOf e (with_function
        (record { at = at; bytes = name.now })
        (hindrance name.now (scopes_of scopes.old)) (scopes_of scopes.old))) }
{
    match scopes.hindrance(name) {
        None => {
            scopes.declare(name, Meaning::Function)?;
            Ok(())
        }
        Some(Meaning::Function) => Ok(()),
        Some(Meaning::Variable(_, _))
        | Some(Meaning::Global(_, _))
        | Some(Meaning::TypeName(_))
        | Some(Meaning::Enumerator(_))
        | Some(Meaning::Library(_))
        | Some(Meaning::Null) => Err(SourceFault::Refused(Refusal {
            at,
            rule: Rule::Twice,
        })),
    }
}

// Its type is that of its first declaration.
fn declare_type<'t>(
    scopes: &mut Scopes<'t>,
    at: u32,
    name: &'t [u8],
    shape: u32,
) -> Result<(), SourceFault>
    ensures declared { IfOk result (λ _. with_first_type
        (record { at = at; bytes = name.now }) shape
        (of_name name.now (scopes_of scopes.old).declared) (scopes_of scopes.old)
        ≡ Ok (shape, scopes_of scopes.new)) }
    ensures outer { OnOk result ((scopes_of scopes.new).outer ≡ (scopes_of scopes.old).outer) }
    ensures refused { IfErr result (λ e. IsRefusalOf e (with_first_type
        (record { at = at; bytes = name.now }) shape
        (of_name name.now (scopes_of scopes.old).declared) (scopes_of scopes.old))) }
{
    match scopes.declared.find(name) {
        None => {
            scopes.declared.push(name, shape)?;
            Ok(())
        }
        Some(first) => {
            if shape == first {
                Ok(())
            } else {
                Err(SourceFault::Refused(Refusal {
                    at,
                    rule: Rule::Mismatch,
                }))
            }
        }
    }
}
