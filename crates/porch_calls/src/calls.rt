//! A call, by what stands in front of its parentheses.

ghost use Rattle.std.specs.Prelude.{◌≡◌, map, Ok, IfOk, IfErr};
ghost use Rattle.porch_check.specs.Operands.{operand};
ghost use Rattle.porch_check.specs.Calls.{call_form};
ghost use Rattle.porch_scopes.specs.Known.{scopes_of};
ghost use Rattle.porch_operands.specs.Views.{as_form, as_typed};
ghost use Rattle.porch_nodes.specs.Answers.{Refuses};
ghost use Rattle.porch_arguments.specs.Views.{as_argument, left};

use crate::library::library_call;
use crate::numbers::Numbers;
use crate::program::program_call;
use porch_access::forms::drop_form;
use porch_arguments::{Argument, turn};
use porch_lex::{Refusal, Rule, SourceFault};
use porch_operands::{Form, Typed};
use porch_rows::{drop_place, drop_tree};
use porch_table::Known;
use sqlite_items::Items;
use std::alloc::Global;

/// A call of what was found in front of the parentheses, with its arguments from left to right. Only names of
/// functions are called. `at` is where the call begins.
pub fn call<'t>(
    alloc: Global,
    numbers: &Numbers<'t>,
    at: u32,
    form: Form<'t>,
    arguments: Items<Argument<'t>>,
    known: &mut Known<'t>,
) -> Result<Typed, SourceFault>
    ensures made { IfOk result (λ x.
        call_form numbers.now at (as_form form.entry) (map as_argument arguments.entry)
        (scopes_of known.old.scopes) ≡ Ok (operand (as_typed x), scopes_of known.new.scopes)) }
    ensures refused { IfErr result (λ f. Refuses f
        (call_form numbers.now at (as_form form.entry) (map as_argument arguments.entry)
        (scopes_of known.old.scopes))) }
{
    match turn(alloc, arguments) {
        Ok(turned) => call_turned(alloc, numbers, at, form, turned, known),
        Err(_) => {
            drop_form(form);
            Err(SourceFault::NoMemory)
        }
    }
}

fn call_turned<'t>(
    alloc: Global,
    numbers: &Numbers<'t>,
    at: u32,
    form: Form<'t>,
    turned: Items<Argument<'t>>,
    known: &mut Known<'t>,
) -> Result<Typed, SourceFault>
    ensures made { IfOk result (λ x.
        call_form numbers.now at (as_form form.entry) (left turned.entry)
        (scopes_of known.old.scopes) ≡ Ok (operand (as_typed x), scopes_of known.new.scopes)) }
    ensures refused { IfErr result (λ f. Refuses f
        (call_form numbers.now at (as_form form.entry) (left turned.entry)
        (scopes_of known.old.scopes))) }
{
    match form {
        Form::Callee(name_at, name) => {
            program_call(alloc, numbers, at, name_at, name, turned, known)
        }
        Form::LibraryCallee(library) => library_call(alloc, library, at, turned, known),
        Form::Operand(x) => {
            drop_tree(x.tree);
            Err(refused(at))
        }
        Form::Place(place, _) => {
            drop_place(place);
            Err(refused(at))
        }
        Form::Sized(count, _) => {
            drop_tree(count.tree);
            Err(refused(at))
        }
        Form::Literal(_) => Err(refused(at)),
        Form::Size(_) => Err(refused(at)),
    }
}

fn refused(at: u32) -> SourceFault
    ensures { result ≡ SourceFault.Refused (record { at = at; rule = Rule.Mismatch }) }
{
    SourceFault::Refused(Refusal {
        at,
        rule: Rule::Mismatch,
    })
}
