//! Calls of functions of the program.

ghost use Rattle.std.specs.Prelude.{◌≡◌, map, Ok, IfOk, IfErr};
ghost use Rattle.porch_typed.specs.Views.{expression_of, expressions_of};
ghost use Rattle.porch_typed.specs.Mirror as tree;
ghost use Rattle.porch_check.specs.Shapes.{function};
ghost use Rattle.porch_check.specs.Operands.{operand, typed_as};
ghost use Rattle.porch_check.specs.Calls.{call_of};
ghost use Rattle.porch_operands.specs.Views.{as_typed, as_value};
ghost use Rattle.porch_nodes.specs.Answers.{Refuses};
ghost use Rattle.porch_arguments.specs.Views.{as_valued, left};
ghost use Rattle.porch_arguments.specs.inside.Values.{counted_call};

use crate::argument::{Argument, Valued};
use crate::fits::fit_all;
use crate::values::values_of;
use porch_lex::{Refusal, Rule, SourceFault};
use porch_nodes::unary;
use porch_operands::agree::value_at;
use porch_operands::{Table, Typed, Value};
use porch_typed::Expression;
use sqlite_items::Items;
use std::alloc::Global;

/// A call of the function of a number, which gives a type and takes others: one argument for each
/// parameter. `at` is where the call begins, and the first argument stands last.
pub fn call_of<'t, T: Table>(
    alloc: Global,
    number: u32,
    at: u32,
    gives: u32,
    params: &[u32],
    turned: Items<Argument<'t>>,
    table: &mut T,
) -> Result<Typed, SourceFault>
    ensures made { IfOk result (λ x. call_of number at (function gives params.now)
        (left turned.entry) (T.scopes table.old)
        ≡ Ok (operand (as_typed x), T.scopes table.new)) }
    ensures refused { IfErr result (λ f. Refuses f (call_of number at (function gives params.now)
        (left turned.entry) (T.scopes table.old))) }
{
    let values = values_of(alloc, turned, table)?;
    counted_call(alloc, number, at, gives, params, values, table)
}

fn counted_call<T: Table>(
    alloc: Global,
    number: u32,
    at: u32,
    gives: u32,
    params: &[u32],
    values: Items<Valued>,
    table: &T,
) -> Result<Typed, SourceFault>
    ensures made { IfOk result (λ x.
        counted_call number at gives params.now (map as_valued values) (T.scopes table.now)
        ≡ Ok (operand (as_typed x), T.scopes table.now)) }
    ensures refused { IfErr result (λ f. Refuses f
        (counted_call number at gives params.now (map as_valued values) (T.scopes table.now))) }
{
    if params.len() == values.len() {
        let arguments = fit_all(alloc, params, values, table)?;
        Ok(call_value(number, arguments, value_at(gives, table)))
    } else {
        drop_values(values);
        Err(SourceFault::Refused(Refusal {
            at,
            rule: Rule::Mismatch,
        }))
    }
}

fn drop_values(_values: Items<Valued>) {}

fn call_value(number: u32, arguments: Items<Expression>, value: Value) -> Typed
    ensures { as_typed result
        ≡ typed_as (tree.call number (expressions_of (map expression_of arguments)))
        (as_value value) }
{
    unary::value_of(call_tree(number, arguments), value)
}

fn call_tree(number: u32, arguments: Items<Expression>) -> Expression
    ensures { expression_of result
        ≡ tree.call number (expressions_of (map expression_of arguments)) }
{
    Expression::Call(number, arguments)
}
