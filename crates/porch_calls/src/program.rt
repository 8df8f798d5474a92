//! Calls of functions of the program.

ghost use Rattle.std.specs.Prelude.{◌≡◌, Ok, IfOk, IfErr};
ghost use Rattle.porch_check.specs.Operands.{operand};
ghost use Rattle.porch_check.specs.Calls.{call_of, program_call};
ghost use Rattle.porch_check.specs.Shapes.{shape_of};
ghost use Rattle.porch_shape.specs.Views.{as_shape};
ghost use Rattle.porch_scopes.specs.Known.{scopes_of};
ghost use Rattle.porch_operands.specs.Views.{as_typed};
ghost use Rattle.porch_nodes.specs.Answers.{Refuses};
ghost use Rattle.porch_arguments.specs.Views.{left};
ghost use Rattle.porch_calls.specs.inside.Signatures.{IsSignatureOf};

use crate::numbers::Numbers;
use porch_arguments::{Argument, call_of};
use porch_lex::{Refusal, Rule, SourceFault};
use porch_operands::Typed;
use porch_shape::Shape;
use porch_table::Known;
use sqlite_items::Items;
use std::alloc::{AllocError, Global};

/// A call of a function of the program, by its name and the name's place. `at` is where the call begins, and
/// the first argument stands last.
pub(crate) fn program_call<'t>(
    alloc: Global,
    numbers: &Numbers<'t>,
    at: u32,
    name_at: u32,
    name: &[u8],
    turned: Items<Argument<'t>>,
    known: &mut Known<'t>,
) -> Result<Typed, SourceFault>
    ensures made { IfOk result (λ x.
        program_call numbers.now at (record { at = name_at; bytes = name.now })
        (left turned.entry) (scopes_of known.old.scopes)
        ≡ Ok (operand (as_typed x), scopes_of known.new.scopes)) }
    ensures refused { IfErr result (λ f. Refuses f
        (program_call numbers.now at (record { at = name_at; bytes = name.now })
        (left turned.entry) (scopes_of known.old.scopes))) }
{
    match known.scopes.declared.find(name) {
        Some(shape) => call_typed(alloc, numbers.number(name), at, shape, turned, known),
        None => {
            drop_arguments(turned);
            Err(refused(Rule::Unknown, name_at))
        }
    }
}

fn refused(rule: Rule, at: u32) -> SourceFault
    ensures { result ≡ SourceFault.Refused (record { at = at; rule = rule }) }
{
    SourceFault::Refused(Refusal { at, rule })
}

fn drop_arguments<'t>(_arguments: Items<Argument<'t>>) {}

// What a function gives and takes: the numbers of these types.
#[derive(Drop)]
struct Signature {
    gives: u32,
    params: Vec<u32>,
}

// A call of the function of a number, which is declared with a type.
#[tactic(auto, using(crate::proofs::Others::no_function))]
fn call_typed<'t>(
    alloc: Global,
    number: u32,
    at: u32,
    shape: u32,
    turned: Items<Argument<'t>>,
    known: &mut Known<'t>,
) -> Result<Typed, SourceFault>
    ensures made { IfOk result (λ x.
        call_of number at (shape_of (scopes_of known.old.scopes).shapes shape) (left turned.entry)
        (scopes_of known.old.scopes) ≡ Ok (operand (as_typed x), scopes_of known.new.scopes)) }
    ensures refused { IfErr result (λ f. Refuses f
        (call_of number at (shape_of (scopes_of known.old.scopes).shapes shape)
        (left turned.entry) (scopes_of known.old.scopes))) }
{
    match signature_of(alloc, known.scopes.shapes.shape(shape)) {
        Ok(Some(signature)) => call_of(
            alloc,
            number,
            at,
            signature.gives,
            signature.params.as_slice(),
            turned,
            known,
        ),
        Ok(None) => {
            drop_arguments(turned);
            Err(refused(Rule::Mismatch, at))
        }
        Err(_) => {
            drop_arguments(turned);
            Err(SourceFault::NoMemory)
        }
    }
}

// What a function of a type gives and takes. There is none where the type is no function's.
fn signature_of(alloc: Global, shape: &Shape) -> Result<Option<Signature>, AllocError>
    ensures { IfOk result (λ s. IsSignatureOf (as_shape shape.now) s) }
{
    match shape {
        Shape::Function(gives, params) => {
            let params = Vec::from_slice(alloc, params.as_slice())?;
            Ok(Some(Signature {
                gives: *gives,
                params,
            }))
        }
        Shape::Void | Shape::Whole(_) | Shape::Pointer(_) => Ok(None),
        Shape::Array(_, _) => Ok(None),
        Shape::Structure(_) => Ok(None),
    }
}
