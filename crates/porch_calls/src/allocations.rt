//! `malloc` and `calloc`.

ghost use Rattle.std.specs.Prelude.{◌≡◌, false, true, pos, Ok, IfOk, IfErr, MatchOption};
ghost use Rattle.porch_types.specs.declared.shapes.Kind.TheVariants.{Int};
ghost use Rattle.porch_typed.specs.Views.{expression_of};
ghost use Rattle.porch_typed.specs.Mirror as tree;
ghost use Rattle.porch_check.specs.Operands.{address, operand, size};
ghost use Rattle.porch_check.specs.Calls.{allocation, calloc_form, counted, malloc_form};
ghost use Rattle.porch_operands.specs.Views.{as_form, as_typed, as_value};
ghost use Rattle.porch_nodes.specs.Answers.{Refuses};
ghost use Rattle.porch_arguments.specs.Views.{as_argument};
ghost use Rattle.porch_calls.specs.inside.Steps.{is_bare_size};

use porch_access::reading::value_in;
use porch_arguments::Argument;
use porch_lex::{Refusal, Rule, SourceFault};
use porch_operands::{Form, Sort, Table, Typed, Value};
use porch_rows::{drop_place, drop_tree};
use porch_typed::Expression;
use porch_types::Kind;
use sqlite_items::Boxed;
use std::alloc::{AllocError, Global};

/// `malloc` of a size, alone or with a count.
pub(crate) fn malloc<'t, T: Table>(
    alloc: Global,
    at: u32,
    form: Form<'t>,
    table: &mut T,
) -> Result<Typed, SourceFault>
    ensures made { IfOk result (λ x. malloc_form at (as_form form.entry) (T.scopes table.old)
        ≡ Ok (operand (as_typed x), T.scopes table.new)) }
    ensures refused { IfErr result (λ f. Refuses f
        (malloc_form at (as_form form.entry) (T.scopes table.old))) }
{
    match form {
        Form::Size(shape) => Ok(allocation(alloc, false, shape, one(), table)?),
        Form::Sized(count, shape) => counted(alloc, false, at, shape, count, table),
        Form::Operand(x) => {
            drop_tree(x.tree);
            Err(SourceFault::Refused(mismatch(at)))
        }
        Form::Place(place, _) => {
            drop_place(place);
            Err(SourceFault::Refused(mismatch(at)))
        }
        Form::Literal(_) => Err(SourceFault::Refused(mismatch(at))),
        Form::Callee(_, _) => Err(SourceFault::Refused(mismatch(at))),
        Form::LibraryCallee(_) => Err(SourceFault::Refused(mismatch(at))),
    }
}

fn one() -> Expression
    ensures { expression_of result ≡ tree.constant Int (pos 1) }
{
    Expression::Constant(Kind::Int, 1)
}

fn mismatch(at: u32) -> Refusal
    ensures { result ≡ record { at = at; rule = Rule.Mismatch } }
{
    Refusal {
        at,
        rule: Rule::Mismatch,
    }
}

fn allocation<T: Table>(
    alloc: Global,
    zeroed: bool,
    shape: u32,
    count: Expression,
    table: &mut T,
) -> Result<Typed, AllocError>
    ensures { IfOk result (λ x.
        allocation zeroed shape (expression_of count) (T.scopes table.old)
        ≡ Ok (operand (as_typed x), T.scopes table.new)) }
{
    match table.pointer_to(shape) {
        Ok(pointer) => allocated(alloc, zeroed, pointer, shape, count),
        Err(error) => {
            drop_tree(count);
            Err(error)
        }
    }
}

fn allocated(
    alloc: Global,
    zeroed: bool,
    pointer: u32,
    shape: u32,
    count: Expression,
) -> Result<Typed, AllocError>
    ensures { IfOk result (λ x. as_typed x ≡ record {
      tree = tree.allocate pointer zeroed (expression_of count);
      value = address pointer shape;
      is_zero = false;
      is_allocation = true;
    }) }
{
    let count = Boxed::new(alloc, count)?;
    Ok(Typed {
        tree: allocation_tree(pointer, zeroed, count),
        sort: Sort {
            value: Value::Address {
                shape: pointer,
                to: shape,
            },
            is_zero: false,
            is_allocation: true,
        },
    })
}

fn allocation_tree(ty: u32, zeroed: bool, count: Boxed<Expression>) -> Expression
    ensures { expression_of result ≡ tree.allocate ty zeroed (expression_of count) }
{
    Expression::Allocate { ty, zeroed, count }
}

// With a count, which has to be an integer.
fn counted<T: Table>(
    alloc: Global,
    zeroed: bool,
    at: u32,
    shape: u32,
    count: Typed,
    table: &mut T,
) -> Result<Typed, SourceFault>
    ensures made { IfOk result (λ x.
        counted zeroed at shape (as_typed count) (as_value count.sort.value) (T.scopes table.old)
        ≡ Ok (operand (as_typed x), T.scopes table.new)) }
    ensures refused { IfErr result (λ f. Refuses f
        (counted zeroed at shape (as_typed count) (as_value count.sort.value)
        (T.scopes table.old))) }
{
    match count.sort.value {
        Value::Integer(_) => Ok(allocation(alloc, zeroed, shape, count.tree, table)?),
        Value::Address { shape: _, to: _ } => {
            drop_tree(count.tree);
            Err(SourceFault::Refused(mismatch(at)))
        }
        Value::NoAddress | Value::Record(_) | Value::Nothing => {
            drop_tree(count.tree);
            Err(SourceFault::Refused(mismatch(at)))
        }
    }
}

/// `calloc` of a count and a size. `at` is where the call begins.
#[tactic(auto, using(crate::proofs::Others::no_size))]
pub(crate) fn calloc<'t, T: Table>(
    alloc: Global,
    at: u32,
    count: Argument<'t>,
    form: Form<'t>,
    table: &mut T,
) -> Result<Typed, SourceFault>
    ensures made { IfOk result (λ x.
        calloc_form at (as_argument count.entry) (as_form form.entry) (T.scopes table.old)
        ≡ Ok (operand (as_typed x), T.scopes table.new)) }
    ensures refused { IfErr result (λ f. Refuses f
        (calloc_form at (as_argument count.entry) (as_form form.entry)
        (T.scopes table.old))) }
{
    match size_of(form) {
        Some(shape) => {
            let value = value_in(count.at, count.form, table)?;
            counted(alloc, true, at, shape, value, table)
        }
        None => {
            drop_argument(count);
            Err(SourceFault::Refused(mismatch(at)))
        }
    }
}

fn drop_argument<'t>(_argument: Argument<'t>) {}

// The type of which a form is the size alone.
fn size_of<'t>(form: Form<'t>) -> Option<u32>
    ensures { MatchOption result (is_bare_size (as_form form.entry) ≡ false)
        (λ n. as_form form.entry ≡ size n) }
{
    match form {
        Form::Size(shape) => Some(shape),
        Form::Operand(x) => {
            drop_tree(x.tree);
            None
        }
        Form::Place(place, _) => {
            drop_place(place);
            None
        }
        Form::Sized(count, _) => {
            drop_tree(count.tree);
            None
        }
        Form::Literal(_) => None,
        Form::Callee(_, _) => None,
        Form::LibraryCallee(_) => None,
    }
}
