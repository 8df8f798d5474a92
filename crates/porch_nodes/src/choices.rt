//! `condition ? chosen : other`, and expressions with commas between them.

ghost use Rattle.std.specs.Prelude.{◌≡◌, IfOk, IfErr, Ok, Option, ℕ};
ghost use Rattle.porch_typed.specs.Views.{expression_of};
ghost use Rattle.porch_typed.specs.Mirror.{choice};
ghost use Rattle.porch_check.specs.Operands.{operand, typed_as};
ghost use Rattle.porch_check.specs.Operators.{choice_form};
ghost use Rattle.porch_operands.specs.Answers.{answered};
ghost use Rattle.porch_operands.specs.Nodes.{choice_with};
ghost use Rattle.porch_operands.specs.Views.{as_typed, as_value, became};
ghost use Rattle.porch_rows.specs.Sequences.{sequence_tree};
ghost use Rattle.porch_nodes.specs.Answers.{Refuses};

use crate::unary::value_of;
use porch_lex::{Refusal, SourceFault};
use porch_operands::choices::{Choice, choose};
use porch_operands::{Becomes, Typed};
use porch_rows::{add_to_sequence, boxed_as, drop_tree};
use porch_typed::Expression;
use sqlite_items::Boxed;
use std::alloc::{AllocError, Global};

/// A choice. `at` is where the whole begins, `of` the condition.
pub fn choice(
    alloc: Global,
    at: u32,
    of: u32,
    condition: Typed,
    chosen: Typed,
    other: Typed,
) -> Result<Typed, SourceFault>
    ensures made { IfOk result (λ x.
        choice_form at of (as_typed condition) (as_typed chosen) (as_typed other)
        ≡ Ok (operand (as_typed x))) }
    ensures refused { IfErr result (λ f. Refuses f
        (choice_form at of (as_typed condition) (as_typed chosen) (as_typed other))) }
{
    let decided = choose(at, of, condition.sort, chosen.sort, other.sort);
    make_choice(alloc, decided, condition.tree, chosen.tree, other.tree)
}

fn make_choice(
    alloc: Global,
    decided: Result<Choice, Refusal>,
    condition: Expression,
    chosen: Expression,
    other: Expression,
) -> Result<Typed, SourceFault>
    ensures made { IfOk result (λ x.
        answered (choice_with (expression_of condition) (expression_of chosen)
        (expression_of other)) decided ≡ Ok (operand (as_typed x))) }
    ensures refused { IfErr result (λ f. Refuses f
        (answered (choice_with (expression_of condition) (expression_of chosen)
        (expression_of other)) decided)) }
{
    match decided {
        Ok(choice) => Ok(choice_of(alloc, condition, chosen, other, choice)?),
        Err(refusal) => {
            drop_tree(condition);
            drop_tree(chosen);
            drop_tree(other);
            Err(SourceFault::Refused(refusal))
        }
    }
}

fn choice_of(
    alloc: Global,
    condition: Expression,
    chosen: Expression,
    other: Expression,
    choice: Choice,
) -> Result<Typed, AllocError>
    ensures { IfOk result (λ x. operand (as_typed x)
        ≡ choice_with (expression_of condition) (expression_of chosen) (expression_of other)
        choice) }
{
    match parts_of(alloc, chosen, choice.chosen, other, choice.other) {
        Ok(parts) => {
            let condition = Boxed::new(alloc, condition)?;
            Ok(value_of(choice_tree(choice.ty, condition, parts), choice.value))
        }
        Err(error) => {
            drop_tree(condition);
            Err(error)
        }
    }
}

// The two parts of a choice.
#[derive(Drop)]
struct Parts {
    chosen: Boxed<Expression>,
    other: Boxed<Expression>,
}

fn parts_of(
    alloc: Global,
    chosen: Expression,
    chosen_becomes: Becomes,
    other: Expression,
    other_becomes: Becomes,
) -> Result<Parts, AllocError>
    ensures chosen { IfOk result (λ p.
        expression_of p.chosen ≡ became chosen_becomes (expression_of chosen)) }
    ensures other { IfOk result (λ p.
        expression_of p.other ≡ became other_becomes (expression_of other)) }
{
    match boxed_as(alloc, chosen, chosen_becomes) {
        Ok(chosen) => {
            let other = boxed_as(alloc, other, other_becomes)?;
            Ok(Parts { chosen, other })
        }
        Err(error) => {
            drop_tree(other);
            Err(error)
        }
    }
}

fn choice_tree(ty: Option<u32>, condition: Boxed<Expression>, parts: Parts) -> Expression
    ensures { expression_of result ≡ choice ty (expression_of condition)
        (expression_of parts.chosen) (expression_of parts.other) }
{
    Expression::Choice {
        ty,
        condition,
        chosen: parts.chosen,
        other: parts.other,
    }
}

/// A comma behind what stands to the left of it. `begun` says whether that ends with a comma and an
/// expression of the same sequence.
pub fn behind(
    alloc: Global,
    begun: bool,
    left: Expression,
    right: Typed,
) -> Result<Typed, AllocError>
    ensures { IfOk result (λ x. as_typed x ≡ typed_as
        (sequence_tree begun (expression_of left) (expression_of right.tree))
        (as_value right.sort.value)) }
{
    let tree = add_to_sequence(alloc, begun, left, right.tree)?;
    Ok(value_of(tree, right.sort.value))
}
