//! A whole call of `printf`.

ghost use Rattle.std.specs.Prelude.{◌≡◌, ◌==◌, true, is_some, length, map, Some, Ok, IfOk, IfErr};
ghost use Rattle.std.specs.Option.{option_map};
ghost use Rattle.porch_typed.specs.Views.{expression_of, print_of};
ghost use Rattle.porch_typed.specs.Views as views;
ghost use Rattle.porch_typed.specs.Mirror as tree;
ghost use Rattle.porch_check.specs.Operands.{literal, operand};
ghost use Rattle.porch_check.specs.Calls.{count_taken, directives, in_text, int_form, printed};
ghost use Rattle.porch_operands.specs.Views.{as_form, as_typed};
ghost use Rattle.porch_nodes.specs.Answers.{Refuses};
ghost use Rattle.porch_arguments.specs.Views.{left};
ghost use Rattle.porch_formats.specs.inside.Printed.{counted};

use crate::showing::show_all;
use porch_arguments::{Argument, count_of, take_literal};
use porch_lex::{Refusal, Rule, SourceFault};
use porch_literals::count::count_arguments;
use porch_nodes::unary;
use porch_operands::{Form, Table, Typed, Value};
use porch_typed::{Expression, Print};
use porch_types::Kind;
use sqlite_items::Items;
use std::alloc::Global;

/// A call of `printf`, by its first argument, which stands at `format_at`, and those behind it, of which the
/// first stands last. `at` is where the call begins.
#[tactic(auto, using(crate::proofs::Others::no_format))]
pub fn printed<'t, T: Table>(
    alloc: Global,
    at: u32,
    format: Form<'t>,
    format_at: u32,
    turned: Items<Argument<'t>>,
    table: &mut T,
) -> Result<Typed, SourceFault>
    ensures made { IfOk result (λ x. printed at (as_form format.entry) format_at
        (left turned.entry) (T.scopes table.old)
        ≡ Ok (operand (as_typed x), T.scopes table.new)) }
    ensures refused { IfErr result (λ f. Refuses f (printed at (as_form format.entry) format_at
        (left turned.entry) (T.scopes table.old))) }
{
    match take_literal(format) {
        Ok(format) => printed_literal(alloc, at, format.as_slice(), format_at, turned, table),
        Err(_) => Err(SourceFault::Refused(mismatch(format_at))),
    }
}

fn mismatch(at: u32) -> Refusal
    ensures { result ≡ record { at = at; rule = Rule.Format } }
{
    Refusal {
        at,
        rule: Rule::Format,
    }
}

#[tactic(auto, using(crate::proofs::Read::known_by_count, crate::proofs::Read::by_count, crate::proofs::Read::by_none))]
fn printed_literal<'t, T: Table>(
    alloc: Global,
    at: u32,
    format: &[u8],
    format_at: u32,
    turned: Items<Argument<'t>>,
    table: &mut T,
) -> Result<Typed, SourceFault>
    ensures made { IfOk result (λ x. printed at (literal format.now) format_at
        (left turned.entry) (T.scopes table.old)
        ≡ Ok (operand (as_typed x), T.scopes table.new)) }
    ensures refused { IfErr result (λ f. Refuses f (printed at (literal format.now) format_at
        (left turned.entry) (T.scopes table.old))) }
{
    match count_arguments(format) {
        Some(count) => printed_counted(alloc, at, format, count, turned, table),
        None => Err(SourceFault::Refused(mismatch(format_at))),
    }
}

// A format that takes so many arguments.
fn printed_counted<'t, T: Table>(
    alloc: Global,
    at: u32,
    format: &[u8],
    count: usize,
    turned: Items<Argument<'t>>,
    table: &mut T,
) -> Result<Typed, SourceFault>
    requires known { is_some (directives in_text format.now) ≡ true }
    ensures made { IfOk result (λ x.
        counted at format.now count (left turned.entry) (T.scopes table.old)
        ≡ Ok (operand (as_typed x), T.scopes table.new)) }
    ensures refused { IfErr result (λ f. Refuses f
        (counted at format.now count (left turned.entry) (T.scopes table.old))) }
{
    if count == count_of(&turned) {
        let prints = show_all(alloc, format, turned, table)?;
        Ok(print_value(prints))
    } else {
        drop_arguments(turned);
        Err(SourceFault::Refused(mismatch(at)))
    }
}

fn drop_arguments<'t>(_arguments: Items<Argument<'t>>) {}

fn print_value(prints: Items<Print>) -> Typed
    ensures { operand (as_typed result)
        ≡ int_form (tree.print (views.prints_of (map print_of prints))) }
{
    unary::value_of(print_tree(prints), Value::Integer(Kind::Int))
}

fn print_tree(prints: Items<Print>) -> Expression
    ensures { expression_of result ≡ tree.print (views.prints_of (map print_of prints)) }
{
    Expression::Print(prints)
}
