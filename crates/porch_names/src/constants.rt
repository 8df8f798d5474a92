//! Enumerations and their constants.

ghost use Rattle.std.specs.Prelude.{◌≡◌, ◌+ℤ◌, pos, if◌then◌else◌, Ok, IfOk, IfErr, OnOk};
ghost use Rattle.std.specs.Option.{option_map};
ghost use Rattle.porch_types.specs.declared.shapes.Kind.TheVariants as kind;
ghost use Rattle.porch_lex.specs.declared.refusal.SourceFault.TheVariants as fault;
ghost use Rattle.porch_lex.specs.declared.refusal.Rule.TheVariants.{Twice, Mismatch};
ghost use Rattle.porch_values.specs.Integers.{in_range};
ghost use Rattle.porch_check.specs.Declarations.{begin_enum, enumerated};
ghost use Rattle.porch_scopes.specs.Known.{scopes_of};
ghost use Rattle.porch_scopes.specs.Answers.{IsRefusalOf};
ghost use Rattle.porch_names.specs.Views.{as_name};

use crate::name::{Name, refusal};
use porch_lex::{Rule, SourceFault};
use porch_scopes::{Meaning, Scopes, Tag};
use porch_tree::TagSort;
use porch_types::INT;

// The values of int.
const LEAST_INT: i128 = -2_147_483_648;

const GREATEST_INT: i128 = 2_147_483_647;

/// The type of an enumeration in front of its brace, with a tag or without one. `at` is the place of the
/// word `enum`.
pub fn begin_enum<'t>(
    scopes: &mut Scopes<'t>,
    at: u32,
    tag: Option<Name<'t>>,
) -> Result<u32, SourceFault>
    ensures typed { IfOk result (λ n. begin_enum at (option_map as_name tag.entry)
        (scopes_of scopes.old) ≡ Ok (n, scopes_of scopes.new)) }
    ensures outer { OnOk result ((scopes_of scopes.new).outer ≡ (scopes_of scopes.old).outer) }
    ensures refused { IfErr result (λ e. IsRefusalOf e
        (begin_enum at (option_map as_name tag.entry) (scopes_of scopes.old))) }
{
    match tag {
        None => Ok(INT),
        Some(tag) => match scopes.tag_here(tag.bytes) {
            None => {
                let begun = Tag {
                    sort: TagSort::Enum,
                    shape: INT,
                    begun: true,
                };
                scopes.declare_tag(tag.bytes, begun)?;
                Ok(INT)
            }
            Some(known) => Err(again(at, tag.at, known.begun)),
        },
    }
}

// A tag of an enumeration that is there in this scope: begun as one, or mentioned as that of a struct.
fn again(at: u32, tag_at: u32, begun: bool) -> SourceFault
    ensures { result ≡ (if begun then fault.Refused (record { at = tag_at; rule = Twice })
        else fault.Refused (record { at = at; rule = Mismatch })) }
{
    if begun {
        refusal(Rule::Twice, tag_at)
    } else {
        refusal(Rule::Mismatch, at)
    }
}

/// Declares an enumeration constant with its value, which is an int, and answers what the next one is
/// counted up to. `at` is the place of the value, or the name's where it was counted up.
pub fn declare_constant<'t>(
    scopes: &mut Scopes<'t>,
    at: u32,
    name: Name<'t>,
    value: i128,
) -> Result<i128, SourceFault>
    ensures typed { IfOk result (λ z. enumerated at (as_name name.entry) value
        (scopes_of scopes.old) ≡ Ok (z, scopes_of scopes.new)) }
    ensures outer { OnOk result ((scopes_of scopes.new).outer ≡ (scopes_of scopes.old).outer) }
    ensures refused { IfErr result (λ e. IsRefusalOf e
        (enumerated at (as_name name.entry) value (scopes_of scopes.old))) }
{
    match successor_of(value) {
        None => Err(refusal(Rule::Mismatch, at)),
        Some(next) => {
            scopes.declare(name.bytes, Meaning::Enumerator(value))?;
            Ok(next)
        }
    }
}

// The next number, where this is an int.
fn successor_of(value: i128) -> Option<i128>
    ensures { result ≡ (if in_range kind.Int 32 value then Some (value +ℤ pos 1) else None) }
{
    if LEAST_INT <= value && value <= GREATEST_INT {
        Some(value + 1)
    } else {
        None
    }
}
