//! Nodes of statements, made of their parts.

ghost use Rattle.std.specs.Prelude.{◌≡◌, IfOk, map};
ghost use Rattle.std.specs.Option.{option_map};
ghost use Rattle.porch_typed.specs.Views.{entries_of, entry_of, expression_of, initial_of, statement_of, statements_of};
ghost use Rattle.porch_typed.specs.Mirror.{block, choose, declare, evaluate, filled, give, repeat_for, repeat_until, repeat_while, statement, switch, value};

use crate::pairs::both_of;
use porch_typed::{Expression, Fill, Initial, Statement, SwitchEntry};
use porch_types::Kind;
use sqlite_items::{Boxed, Items};
use std::alloc::{AllocError, Global};

pub(crate) fn filled_of(alloc: Global, fills: &[(u32, Fill)]) -> Result<Initial, AllocError>
    ensures { IfOk result (λ r. initial_of r ≡ filled fills.now) }
{
    Ok(Initial::Filled(Items::from_slice(alloc, fills)?))
}

pub(crate) fn value_of(e: Expression) -> Initial
    ensures { initial_of result ≡ value (expression_of e) }
{
    Initial::Value(e)
}

pub(crate) fn block_of(statements: Items<Statement>) -> Statement
    ensures { statement_of result ≡ block (statements_of (map statement_of statements)) }
{
    Statement::Block(statements)
}

pub(crate) fn declare_of(variable: u32, initial: Initial) -> Statement
    ensures { statement_of result ≡ declare variable (initial_of initial) }
{
    Statement::Declare(variable, initial)
}

pub(crate) fn evaluate_of(e: Expression) -> Statement
    ensures { statement_of result ≡ evaluate (expression_of e) }
{
    Statement::Evaluate(e)
}

pub(crate) fn choose_of(
    alloc: Global,
    condition: Expression,
    chosen: Statement,
    other: Statement,
) -> Result<Statement, AllocError>
    ensures { IfOk result (λ r. statement_of r
        ≡ choose (expression_of condition) (statement_of chosen) (statement_of other)) }
{
    let (condition, (chosen, other)) = both_of(
        Ok(condition),
        both_of(Boxed::new(alloc, chosen), Boxed::new(alloc, other)),
    )?;
    Ok(Statement::Choose {
        condition,
        chosen,
        other,
    })
}

pub(crate) fn while_of(
    alloc: Global,
    condition: Expression,
    body: Statement,
) -> Result<Statement, AllocError>
    ensures { IfOk result (λ r. statement_of r
        ≡ repeat_while (expression_of condition) (statement_of body)) }
{
    let (condition, body) = both_of(Ok(condition), Boxed::new(alloc, body))?;
    Ok(Statement::While { condition, body })
}

pub(crate) fn do_of(
    alloc: Global,
    body: Statement,
    condition: Expression,
) -> Result<Statement, AllocError>
    ensures { IfOk result (λ r. statement_of r
        ≡ repeat_until (statement_of body) (expression_of condition)) }
{
    let (condition, body) = both_of(Ok(condition), Boxed::new(alloc, body))?;
    Ok(Statement::Do { body, condition })
}

pub(crate) fn for_of(alloc: Global, head: Head, body: Statement) -> Result<Statement, AllocError>
    ensures { IfOk result (λ r. statement_of r
        ≡ repeat_for (option_map expression_of head.start) (option_map expression_of head.condition)
        (option_map expression_of head.next) (statement_of body)) }
{
    let (head, body) = both_of(Ok(head), Boxed::new(alloc, body))?;
    let Head {
        start,
        condition,
        next,
    } = head;
    Ok(Statement::For {
        start,
        condition,
        next,
        body,
    })
}

pub(crate) fn switch_of(kind: Kind, value: Expression, entries: Items<SwitchEntry>) -> Statement
    ensures { statement_of result
        ≡ switch kind (expression_of value) (entries_of (map entry_of entries)) }
{
    Statement::Switch {
        kind,
        value,
        entries,
    }
}

pub(crate) fn return_of(e: Option<Expression>) -> Statement
    ensures { statement_of result ≡ give (option_map expression_of e) }
{
    Statement::Return(e)
}

pub(crate) fn entry_of_statement(s: Statement) -> SwitchEntry
    ensures { entry_of result ≡ statement (statement_of s) }
{
    SwitchEntry::Statement(s)
}

/// What stands in the parentheses of a `for`.
#[derive(Drop)]
pub(crate) struct Head {
    pub(crate) start: Option<Expression>,
    pub(crate) condition: Option<Expression>,
    pub(crate) next: Option<Expression>,
}
