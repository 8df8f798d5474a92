//! Statements in the last numbers of their types.

ghost use Rattle.std.specs.Prelude.{◌≡◌, ◌++◌, IfOk, OnOk, map};
ghost use Rattle.std.specs.Option.{option_map};
ghost use Rattle.porch_typed.specs.Views.{entries_of, entry_of, expression_of, initial_of, statement_of, statements_of};
ghost use Rattle.porch_check.specs.Sealing.{sealed, sealed_entries, sealed_entry, sealed_initial, sealed_statement, sealed_statements};
ghost use Rattle.porch_sealing.specs.Numbers.{last_in};

use crate::expression::sealed_expression;
use crate::pairs::both_of;
use crate::statement_nodes::{
    Head, block_of, choose_of, declare_of, do_of, entry_of_statement, evaluate_of, filled_of,
    for_of, return_of, switch_of, value_of, while_of,
};
use porch_sealing::LastNumbers;
use porch_typed::{Expression, Initial, Statement, SwitchEntry};
use sqlite_items::Items;
use std::alloc::{AllocError, Global};

/// A statement, in the last numbers of its types.
#[cycle(statements)]
pub fn sealed_statement(
    s: &Statement,
    alloc: Global,
    numbers: &LastNumbers,
) -> Result<Statement, AllocError>
    ensures { IfOk result (λ r. statement_of r
        ≡ sealed_statement (last_in numbers.now) (statement_of s.now)) }
{
    match s {
        Statement::Block(statements) => Ok(block_of(sealed_statements(
            statements.as_slice(),
            alloc,
            numbers,
        )?)),
        Statement::Declare(variable, initial) => Ok(declare_of(
            *variable,
            sealed_initial(initial, alloc, numbers)?,
        )),
        Statement::Evaluate(e) => Ok(evaluate_of(sealed_expression(e, alloc, numbers)?)),
        Statement::Choose {
            condition,
            chosen,
            other,
        } => {
            let (condition, (chosen, other)) = both_of(
                sealed_expression(condition, alloc, numbers),
                both_of(
                    sealed_statement(chosen.get(), alloc, numbers),
                    sealed_statement(other.get(), alloc, numbers),
                ),
            )?;
            Ok(choose_of(alloc, condition, chosen, other)?)
        }
        Statement::While { condition, body } => {
            let (condition, body) = both_of(
                sealed_expression(condition, alloc, numbers),
                sealed_statement(body.get(), alloc, numbers),
            )?;
            Ok(while_of(alloc, condition, body)?)
        }
        Statement::Do { body, condition } => {
            let (body, condition) = both_of(
                sealed_statement(body.get(), alloc, numbers),
                sealed_expression(condition, alloc, numbers),
            )?;
            Ok(do_of(alloc, body, condition)?)
        }
        Statement::For {
            start,
            condition,
            next,
            body,
        } => {
            let (head, body) = both_of(
                sealed_head(start, condition, next, alloc, numbers),
                sealed_statement(body.get(), alloc, numbers),
            )?;
            Ok(for_of(alloc, head, body)?)
        }
        Statement::Switch {
            kind,
            value,
            entries,
        } => {
            let (value, entries) = both_of(
                sealed_expression(value, alloc, numbers),
                sealed_entries(entries.as_slice(), alloc, numbers),
            )?;
            Ok(switch_of(*kind, value, entries))
        }
        Statement::Leave => Ok(Statement::Leave),
        Statement::GoRound => Ok(Statement::GoRound),
        Statement::Return(e) => Ok(return_of(sealed_option(e, alloc, numbers)?)),
    }
}

/// Statements, in the last numbers of their types.
#[cycle(statements)]
pub fn sealed_statements(
    ss: &[Statement],
    alloc: Global,
    numbers: &LastNumbers,
) -> Result<Items<Statement>, AllocError>
    ensures { IfOk result (λ r. statements_of (map statement_of r)
        ≡ sealed_statements (last_in numbers.now) (statements_of (map statement_of ss.now))) }
{
    let mut out = Items::new(alloc);
    put_statements(ss, alloc, numbers, &mut out)?;
    Ok(out)
}

#[cycle(statements)]
fn put_statements(
    ss: &[Statement],
    alloc: Global,
    numbers: &LastNumbers,
    out: &mut Items<Statement>,
) -> Result<(), AllocError>
    ensures { OnOk result (map statement_of out.new ≡ map statement_of out.old
        ++ map (sealed_statement (last_in numbers.now)) (map statement_of ss.now)) }
{
    for s in ss {
        let sealed = sealed_statement(s, alloc, numbers)?;
        out.push(sealed)?;
    }
    Ok(())
}

#[cycle(statements)]
fn sealed_entry(
    x: &SwitchEntry,
    alloc: Global,
    numbers: &LastNumbers,
) -> Result<SwitchEntry, AllocError>
    ensures { IfOk result (λ r. entry_of r
        ≡ sealed_entry (last_in numbers.now) (entry_of x.now)) }
{
    match x {
        SwitchEntry::Case(z) => Ok(SwitchEntry::Case(*z)),
        SwitchEntry::Default => Ok(SwitchEntry::Default),
        SwitchEntry::Statement(s) => Ok(entry_of_statement(sealed_statement(s, alloc, numbers)?)),
    }
}

#[cycle(statements)]
fn sealed_entries(
    xs: &[SwitchEntry],
    alloc: Global,
    numbers: &LastNumbers,
) -> Result<Items<SwitchEntry>, AllocError>
    ensures { IfOk result (λ r. entries_of (map entry_of r)
        ≡ sealed_entries (last_in numbers.now) (entries_of (map entry_of xs.now))) }
{
    let mut out = Items::new(alloc);
    put_entries(xs, alloc, numbers, &mut out)?;
    Ok(out)
}

#[cycle(statements)]
fn put_entries(
    xs: &[SwitchEntry],
    alloc: Global,
    numbers: &LastNumbers,
    out: &mut Items<SwitchEntry>,
) -> Result<(), AllocError>
    ensures { OnOk result (map entry_of out.new ≡ map entry_of out.old
        ++ map (sealed_entry (last_in numbers.now)) (map entry_of xs.now)) }
{
    for x in xs {
        let sealed = sealed_entry(x, alloc, numbers)?;
        out.push(sealed)?;
    }
    Ok(())
}

fn sealed_initial(
    initial: &Initial,
    alloc: Global,
    numbers: &LastNumbers,
) -> Result<Initial, AllocError>
    ensures { IfOk result (λ r. initial_of r
        ≡ sealed_initial (last_in numbers.now) (initial_of initial.now)) }
{
    match initial {
        Initial::Nothing => Ok(Initial::Nothing),
        Initial::Value(e) => Ok(value_of(sealed_expression(e, alloc, numbers)?)),
        Initial::Filled(fills) => Ok(filled_of(alloc, fills.as_slice())?),
    }
}

fn sealed_head(
    start: &Option<Expression>,
    condition: &Option<Expression>,
    next: &Option<Expression>,
    alloc: Global,
    numbers: &LastNumbers,
) -> Result<Head, AllocError>
    ensures start { IfOk result (λ r. option_map expression_of r.start
        ≡ option_map (sealed (last_in numbers.now)) (option_map expression_of start.now)) }
    ensures condition { IfOk result (λ r. option_map expression_of r.condition
        ≡ option_map (sealed (last_in numbers.now)) (option_map expression_of condition.now)) }
    ensures next { IfOk result (λ r. option_map expression_of r.next
        ≡ option_map (sealed (last_in numbers.now)) (option_map expression_of next.now)) }
{
    let (start, (condition, next)) = both_of(
        sealed_option(start, alloc, numbers),
        both_of(
            sealed_option(condition, alloc, numbers),
            sealed_option(next, alloc, numbers),
        ),
    )?;
    Ok(Head {
        start,
        condition,
        next,
    })
}

fn sealed_option(
    e: &Option<Expression>,
    alloc: Global,
    numbers: &LastNumbers,
) -> Result<Option<Expression>, AllocError>
    ensures { IfOk result (λ r. option_map expression_of r
        ≡ option_map (sealed (last_in numbers.now)) (option_map expression_of e.now)) }
{
    match e {
        None => Ok(None),
        Some(e) => Ok(Some(sealed_expression(e, alloc, numbers)?)),
    }
}
