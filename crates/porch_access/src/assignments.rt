//! `=`, alone and with an operator.

ghost use Rattle.std.specs.Prelude.{◌≡◌, IfOk, IfErr, Ok};
ghost use Rattle.porch_tree.specs.declared.tree.Assigning.TheVariants.{Plain};
ghost use Rattle.porch_typed.specs.Views.{expression_of, place_of};
ghost use Rattle.porch_typed.specs.Mirror.{Expression as Tree, Place as PlaceTree, assign, assign_by};
ghost use Rattle.porch_check.specs.Operands.{operand, typed_as};
ghost use Rattle.porch_check.specs.Operators.{assign_form, assigned, assigned_by, infix_of};
ghost use Rattle.porch_operands.specs.Views.{as_form, as_typed, as_value, became, operation_with, typed_with};
ghost use Rattle.porch_nodes.specs.Answers.{Refuses};
ghost use Rattle.porch_access.specs.inside.Assignments.{fitting_update, is_plain, updated_by, updated_with};

use crate::forms::take_place;
use crate::reading::reading_of;
use porch_lex::{Refusal, Rule, SourceFault};
use porch_nodes::places::Object;
use porch_nodes::unary;
use porch_operands::agree::{fit, value_at};
use porch_operands::operators::{operation, sign_of};
use porch_operands::{Becomes, Form, Operation, Sort, Table, Typed, Value};
use porch_rows::{boxed_as, drop_place, drop_tree};
use porch_tree::{Assigning, Infix};
use porch_typed::{Expression, Operator, Place};
use sqlite_items::Boxed;
use std::alloc::{AllocError, Global};

/// An assignment to a form, which has to be a place. `at` is where it begins.
#[tactic(auto, using(crate::proofs::Elsewhere::no_assignment))]
pub fn assign<'t, T: Table>(
    alloc: Global,
    assigning: Assigning,
    at: u32,
    form: Form<'t>,
    value: Typed,
    table: &mut T,
) -> Result<Typed, SourceFault>
    ensures made { IfOk result (λ x.
        assign_form assigning at (as_form form.entry) (as_typed value) (T.scopes table.old)
        ≡ Ok (operand (as_typed x), T.scopes table.new)) }
    ensures refused { IfErr result (λ f. Refuses f
        (assign_form assigning at (as_form form.entry) (as_typed value) (T.scopes table.old))) }
{
    match take_place(form) {
        Some(object) => assign_to(alloc, assigning, at, object, value, table),
        None => {
            drop_tree(value.tree);
            Err(SourceFault::Refused(Refusal {
                at,
                rule: Rule::NotPlace,
            }))
        }
    }
}

fn is_plain(assigning: Assigning) -> bool
    ensures { result ≡ is_plain assigning }
{
    matches!(assigning, Assigning::Plain)
}

#[tactic(auto, using(crate::proofs::Assigned::plainly, crate::proofs::Assigned::by_operator))]
fn assign_to<T: Table>(
    alloc: Global,
    assigning: Assigning,
    at: u32,
    object: Object,
    value: Typed,
    table: &mut T,
) -> Result<Typed, SourceFault>
    ensures made { IfOk result (λ x.
        assigned assigning at (place_of object.place) object.shape (as_typed value)
        (T.scopes table.old) ≡ Ok (operand (as_typed x), T.scopes table.new)) }
    ensures refused { IfErr result (λ f. Refuses f
        (assigned assigning at (place_of object.place) object.shape (as_typed value)
        (T.scopes table.old))) }
{
    if is_plain(assigning) {
        store(alloc, at, object, value, table)
    } else {
        operate(alloc, sign_of(assigning), at, object, value, table)
    }
}

// `=`
fn store<T: Table>(
    alloc: Global,
    at: u32,
    object: Object,
    value: Typed,
    table: &T,
) -> Result<Typed, SourceFault>
    ensures made { IfOk result (λ x.
        assigned Plain at (place_of object.place) object.shape (as_typed value)
        (T.scopes table.now) ≡ Ok (operand (as_typed x), T.scopes table.now)) }
    ensures refused { IfErr result (λ f. Refuses f
        (assigned Plain at (place_of object.place) object.shape (as_typed value)
        (T.scopes table.now))) }
{
    match fit(at, object.shape, value.sort, table) {
        Ok(becomes) => {
            let stored = value_at(object.shape, table);
            Ok(stored_value(alloc, object, value.tree, becomes, stored)?)
        }
        Err(refusal) => {
            drop_place(object.place);
            drop_tree(value.tree);
            Err(SourceFault::Refused(refusal))
        }
    }
}

fn stored_value(
    alloc: Global,
    object: Object,
    tree: Expression,
    becomes: Becomes,
    value: Value,
) -> Result<Typed, AllocError>
    ensures { IfOk result (λ x. as_typed x ≡ typed_as
        (assign object.shape (place_of object.place) (became becomes (expression_of tree)))
        (as_value value)) }
{
    match boxed_as(alloc, tree, becomes) {
        Ok(tree) => Ok(unary::value_of(assign_tree(object.shape, object.place, tree), value)),
        Err(error) => {
            drop_place(object.place);
            Err(error)
        }
    }
}

fn assign_tree(shape: u32, place: Place, value: Boxed<Expression>) -> Expression
    ensures { expression_of result ≡ assign shape (place_of place) (expression_of value) }
{
    Expression::Assign(shape, place, value)
}

// What an assignment with an operator does, and its value.
#[derive(Clone, Copy, Debug, PartialEq, Eq)]
struct Update {
    operation: Operation,
    value: Value,
}

// `op=`
fn operate<T: Table>(
    alloc: Global,
    sign: Infix,
    at: u32,
    object: Object,
    value: Typed,
    table: &mut T,
) -> Result<Typed, SourceFault>
    ensures made { IfOk result (λ x.
        assigned_by sign at (place_of object.place) object.shape (as_typed value)
        (T.scopes table.old) ≡ Ok (operand (as_typed x), T.scopes table.new)) }
    ensures refused { IfErr result (λ f. Refuses f
        (assigned_by sign at (place_of object.place) object.shape (as_typed value)
        (T.scopes table.old))) }
{
    match update_of(sign, at, object.shape, value.sort, table) {
        Ok(update) => Ok(updated_value(alloc, object, value.tree, update)?),
        Err(fault) => {
            drop_place(object.place);
            drop_tree(value.tree);
            Err(fault)
        }
    }
}

fn update_of<T: Table>(
    sign: Infix,
    at: u32,
    shape: u32,
    right: Sort,
    table: &mut T,
) -> Result<Update, SourceFault>
    ensures made { IfOk result (λ u. (p : PlaceTree) (e : Tree) →
        assigned_by sign at p shape (typed_with e right) (T.scopes table.old)
        ≡ Ok (operand (updated_with shape p e u), T.scopes table.new)) }
    ensures refused { IfErr result (λ f. (p : PlaceTree) (e : Tree) → Refuses f
        (assigned_by sign at p shape (typed_with e right) (T.scopes table.old))) }
{
    let reading = reading_of(shape, table)?;
    match update_from(sign, at, shape, Sort::of(reading.value), right, table) {
        Ok(update) => Ok(update),
        Err(fault) => Err(fault),
    }
}

fn update_from<T: Table>(
    sign: Infix,
    at: u32,
    shape: u32,
    left: Sort,
    right: Sort,
    table: &T,
) -> Result<Update, SourceFault>
    ensures made { IfOk result (λ u. (p : PlaceTree) (a e : Tree) →
        updated_by sign at p shape (typed_with a left) (typed_with e right) (T.scopes table.now)
        ≡ Ok (operand (updated_with shape p e u), T.scopes table.now)) }
    ensures refused { IfErr result (λ f. (p : PlaceTree) (a e : Tree) → Refuses f
        (updated_by sign at p shape (typed_with a left) (typed_with e right)
        (T.scopes table.now))) }
{
    match operation(sign, at, left, right, table) {
        Ok(operation) => update_fitting(at, shape, operation, table),
        Err(refusal) => Err(SourceFault::Refused(refusal)),
    }
}

fn update_fitting<T: Table>(
    at: u32,
    shape: u32,
    operation: Operation,
    table: &T,
) -> Result<Update, SourceFault>
    ensures made { IfOk result (λ u. (p : PlaceTree) (e : Tree) →
        fitting_update at p shape (operation_with e operation) (T.scopes table.now)
        ≡ Ok (operand (updated_with shape p e u), T.scopes table.now)) }
    ensures refused { IfErr result (λ f. (p : PlaceTree) (e : Tree) → Refuses f
        (fitting_update at p shape (operation_with e operation) (T.scopes table.now))) }
{
    match fit(at, shape, Sort::of(operation.value), table) {
        Ok(_) => Ok(Update {
            operation,
            value: value_at(shape, table),
        }),
        Err(refusal) => Err(SourceFault::Refused(refusal)),
    }
}

fn updated_value(
    alloc: Global,
    object: Object,
    tree: Expression,
    update: Update,
) -> Result<Typed, AllocError>
    ensures { IfOk result (λ x. as_typed x
        ≡ updated_with object.shape (place_of object.place) (expression_of tree) update) }
{
    match boxed_as(alloc, tree, update.operation.right) {
        Ok(tree) => Ok(unary::value_of(
            update_tree(object.shape, update.operation.operator, object.place, tree),
            update.value,
        )),
        Err(error) => {
            drop_place(object.place);
            Err(error)
        }
    }
}

fn update_tree(shape: u32, operator: Operator, place: Place, value: Boxed<Expression>) -> Expression
    ensures { expression_of result
        ≡ assign_by shape operator (place_of place) (expression_of value) }
{
    Expression::AssignBy(shape, operator, place, value)
}
