//! `free` and `checkpoint`.

ghost use Rattle.std.specs.Prelude.{◌≡◌, if◌then◌else◌, false, Ok, IfOk, IfErr};
ghost use Rattle.porch_lex.specs.declared.refusal.Rule.TheVariants.{Mismatch};
ghost use Rattle.porch_check.specs.Refusals.{refuse};
ghost use Rattle.porch_typed.specs.Views.{expression_of};
ghost use Rattle.porch_typed.specs.Mirror as tree;
ghost use Rattle.porch_typed.specs.Mirror.{Expression as Tree};
ghost use Rattle.porch_check.specs.Operands.{is_null, nothing, operand, typed_as};
ghost use Rattle.porch_check.specs.Calls.{released};
ghost use Rattle.porch_operands.specs.Answers.{answered};
ghost use Rattle.porch_operands.specs.Views.{as_form, as_typed, as_value, typed_with};
ghost use Rattle.porch_nodes.specs.Answers.{Refuses};
ghost use Rattle.porch_calls.specs.inside.Steps.{freed, freed_form, freed_tree};

use porch_access::reading::value_in;
use porch_lex::{Refusal, Rule, SourceFault};
use porch_nodes::unary;
use porch_operands::{Form, Sort, Table, Typed, Value};
use porch_rows::drop_tree;
use porch_typed::Expression;
use sqlite_items::Boxed;
use std::alloc::{AllocError, Global};

/// `free` of an argument, which begins at a place.
pub(crate) fn free<'t, T: Table>(
    alloc: Global,
    at: u32,
    form: Form<'t>,
    table: &mut T,
) -> Result<Typed, SourceFault>
    ensures made { IfOk result (λ x. freed at (as_form form.entry) (T.scopes table.old)
        ≡ Ok (operand (as_typed x), T.scopes table.new)) }
    ensures refused { IfErr result (λ f. Refuses f
        (freed at (as_form form.entry) (T.scopes table.old))) }
{
    let value = value_in(at, form, table)?;
    release(alloc, at, value)
}

fn release(alloc: Global, at: u32, value: Typed) -> Result<Typed, SourceFault>
    ensures made { IfOk result (λ x.
        released at (as_typed value) (as_value value.sort.value) ≡ Ok (operand (as_typed x))) }
    ensures refused { IfErr result (λ f. Refuses f
        (released at (as_typed value) (as_value value.sort.value))) }
{
    match is_released(at, value.sort) {
        Ok(is_pointer) => Ok(released_value(alloc, is_pointer, value.tree)?),
        Err(refusal) => {
            drop_tree(value.tree);
            Err(SourceFault::Refused(refusal))
        }
    }
}

// Whether a pointer is freed, and not a constant that is null.
fn is_released(at: u32, sort: Sort) -> Result<bool, Refusal>
    ensures { (e : Tree) → released at (typed_with e sort) (as_value sort.value)
        ≡ answered (freed_form e) result }
{
    match sort.value {
        Value::Address { shape: _, to: _ } => Ok(true),
        Value::Integer(_) => is_null(at, sort),
        Value::NoAddress => is_null(at, sort),
        Value::Record(_) => is_null(at, sort),
        Value::Nothing => is_null(at, sort),
    }
}

fn is_null(at: u32, sort: Sort) -> Result<bool, Refusal>
    ensures { (e : Tree) → (if is_null (typed_with e sort) then Ok (freed_form e false)
        else refuse Mismatch at) ≡ answered (freed_form e) result }
{
    if sort.is_null() {
        Ok(false)
    } else {
        Err(Refusal {
            at,
            rule: Rule::Mismatch,
        })
    }
}

fn released_value(alloc: Global, is_pointer: bool, e: Expression) -> Result<Typed, AllocError>
    ensures { IfOk result (λ x. operand (as_typed x)
        ≡ freed_form (expression_of e) is_pointer) }
{
    let e = Boxed::new(alloc, e)?;
    Ok(unary::value_of(released_tree(is_pointer, e), Value::Nothing))
}

fn released_tree(is_pointer: bool, e: Boxed<Expression>) -> Expression
    ensures { expression_of result ≡ freed_tree (expression_of e) is_pointer }
{
    if is_pointer {
        Expression::Release(e)
    } else {
        Expression::Discard(e)
    }
}

/// `checkpoint`
pub(crate) fn checkpoint() -> Typed
    ensures { as_typed result ≡ typed_as tree.checkpoint nothing }
{
    unary::value_of(checkpoint_tree(), Value::Nothing)
}

fn checkpoint_tree() -> Expression
    ensures { expression_of result ≡ tree.checkpoint }
{
    Expression::Checkpoint
}
