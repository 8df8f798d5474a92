//! One step of a row of operators.

ghost use Rattle.std.specs.Prelude.{◌≡◌, ◌≤◌, ℕ, IfOk, OnOk};
ghost use Rattle.porch_typed.specs.Mirror.{Program};
ghost use Rattle.porch_lowering.specs.Code.{InUse, at_most};
ghost use Rattle.porch_lowering.specs.Expression.{target, with_target};
ghost use Rattle.porch_lowering.specs.Operators.{next_of};
ghost use Rattle.porch_emitter.specs.Made.{and_taken, made_of, with_used};
ghost use Rattle.porch_lower_steps.specs.Steps.{IsStep, IsTarget, in_use_with};
ghost use Rattle.porch_lower_steps.specs.inside.Raised.{count_of, raised_by};

use porch_emitter::Emitter;
use porch_facts::operator_type;
use porch_lower_operators::{Typed, operate};
use porch_typed::Operator;
use std::alloc::AllocError;

/// Two operands, and the types of the temporaries that hold them, if such do. The right one was taken last.
#[derive(Clone, Copy, Debug)]
pub struct Operands {
    pub left: Typed,
    pub left_taken: Option<u32>,
    pub right: Typed,
    pub right_taken: Option<u32>,
}

/// An operator between the operands, whose value goes to a variable, or where there is none to the next
/// temporary that is free without them. Then they are free again, and a temporary of the value's type is in use.
/// The answer is the variable that has the value.
pub fn operate_step(
    emitter: &mut Emitter,
    operator: Operator,
    to: Option<u32>,
    operands: Operands,
) -> Result<u32, AllocError>
    ensures target { IfOk result (λ d. (free : InUse)
        → (made_of emitter.old).used ≡ in_use_with operands free
        → IsTarget operator to free (made_of emitter.old) d) }
    ensures made { OnOk result ((free : InUse)
        → (made_of emitter.old).used ≡ in_use_with operands free
        → IsStep operator to operands free (made_of emitter.old) (made_of emitter.new)) }
{
    let ty = operator_type(operator);
    let Target { variable, raised } = target_of(emitter, to, ty, operands)?;
    take_again(emitter, raised)?;
    operate(emitter, operator, variable, operands.left, operands.right)?;
    emitter.let_go(raised);
    emitter.let_go(operands.right_taken);
    emitter.let_go(operands.left_taken);
    let _ = emitter.take(ty)?;
    Ok(variable)
}

// The variable that a value goes to, and the type of the temporary that has to be in use for it besides the
// operands' own.
#[derive(Clone, Copy, Debug)]
struct Target {
    variable: u32,
    raised: Option<u32>,
}

fn target_of(
    emitter: &mut Emitter,
    to: Option<u32>,
    ty: u32,
    operands: Operands,
) -> Result<Target, AllocError>
    ensures variable { IfOk result (λ t. (free : InUse)
        → (made_of emitter.old).used ≡ in_use_with operands free
        → (p : Program) → t.variable ≡ target p (made_of emitter.old).start to ty free) }
    ensures raised { IfOk result (λ t. (free : InUse)
        → (made_of emitter.old).used ≡ in_use_with operands free
        → (p : Program) → and_taken t.raised (made_of emitter.old).used ≡ at_most
        (with_target p (made_of emitter.old).start to ty free) (made_of emitter.old).used) }
    ensures same { OnOk result (made_of emitter.new ≡ made_of emitter.old) }
{
    match to {
        Some(variable) => Ok(Target {
            variable,
            raised: None,
        }),
        None => {
            let held = count_of(ty, operands.left_taken) + count_of(ty, operands.right_taken);
            let next = next_of(emitter, ty)?;
            Ok(Target {
                variable: next.saturating_sub(held),
                raised: raised_by(held, ty),
            })
        }
    }
}

// The next free temporary of a type, which stays free.
fn next_of(emitter: &mut Emitter, ty: u32) -> Result<u32, AllocError>
    ensures next { IfOk result (λ t.
        t ≡ next_of (made_of emitter.old).start ty (made_of emitter.old).used) }
    ensures same { OnOk result (made_of emitter.new ≡ made_of emitter.old) }
{
    let next = emitter.take(ty)?;
    emitter.give_back(ty);
    Ok(next)
}

fn take_again(emitter: &mut Emitter, taken: Option<u32>) -> Result<(), AllocError>
    ensures { OnOk result (made_of emitter.new
        ≡ with_used (made_of emitter.old) (and_taken taken (made_of emitter.old).used)) }
{
    match taken {
        None => Ok(()),
        Some(ty) => {
            let _ = emitter.take(ty)?;
            Ok(())
        }
    }
}

fn count_of(ty: u32, taken: Option<u32>) -> u32
    ensures is { result ≡ count_of ty taken }
    ensures few { result ≤ 1 }
{
    match taken {
        None => 0,
        Some(own) => { if ty == own { 1 } else { 0 } }
    }
}

fn raised_by(held: u32, ty: u32) -> Option<u32>
    ensures { result ≡ raised_by held ty }
{
    if held == 0 { Some(ty) } else { None }
}
