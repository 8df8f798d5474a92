//! What is used and converted before an operator.

ghost use Rattle.std.specs.Prelude.{◌≡◌, ◌&&◌, not, IfOk, OnOk};
ghost use Rattle.porch_lowering.specs.Operators.{commands_if, may_fail, next_of, operand_if, used_commands, used_if};
ghost use Rattle.porch_emitter.specs.Made.{and_taken, made_of, with_commands};
ghost use Rattle.porch_lower_operators.specs.inside.Conversions.{with_converted};

use crate::commands::var_of;
use crate::kinds::may_fail;
use porch_emitter::Emitter;
use porch_flat::flat::Operand;
use porch_flat::whole::Command;
use std::alloc::AllocError;

/// An operand, and the type of the temporary that holds it, if one does.
#[derive(Clone, Copy, Debug)]
pub struct Held {
    pub operand: Operand,
    pub taken: Option<u32>,
}

// Whether an operand is converted and that may meet undefined behaviour.
pub(crate) fn fails(converted: bool, from: u32, to: u32) -> bool
    ensures { result ≡ (converted && may_fail from to) }
{
    if converted { may_fail(from, to) } else { false }
}

pub(crate) fn alone(other: bool, this: bool) -> bool
    ensures { result ≡ (not other && this) }
{
    if other { false } else { this }
}

// An operand is used, if it is to be.
pub(crate) fn use_if(
    emitter: &mut Emitter,
    is_used: bool,
    operand: Operand,
) -> Result<(), AllocError>
    ensures { OnOk result (made_of emitter.new
        ≡ with_commands (made_of emitter.old) (commands_if is_used (used_commands operand))) }
{
    if is_used {
        use_value(emitter, operand)
    } else {
        Ok(())
    }
}

// A variable that is used meets undefined behaviour where it has no value.
fn use_value(emitter: &mut Emitter, operand: Operand) -> Result<(), AllocError>
    ensures { OnOk result (made_of emitter.new
        ≡ with_commands (made_of emitter.old) (used_commands operand)) }
{
    match operand {
        Operand::Constant(_) => Ok(()),
        Operand::Var(v) => emitter.push(Command::Move(v, Operand::Var(v))),
    }
}

// An operand is converted to a type, if it is to be, and is then in a temporary of the type.
pub(crate) fn convert_if(
    emitter: &mut Emitter,
    converted: bool,
    operand: Operand,
    to: u32,
) -> Result<Held, AllocError>
    ensures operand { IfOk result (λ h. h.operand ≡ operand_if converted
        (next_of (made_of emitter.old).start to (made_of emitter.old).used) operand) }
    ensures taken { IfOk result (λ h. used_if converted (made_of emitter.old).used to
        ≡ and_taken h.taken (made_of emitter.old).used) }
    ensures made { OnOk result (made_of emitter.new
        ≡ with_converted converted operand to (made_of emitter.old)) }
{
    if converted {
        let temporary = emitter.take(to)?;
        emitter.push(Command::Cast(temporary, var_of(operand)))?;
        Ok(Held {
            operand: Operand::Var(temporary),
            taken: Some(to),
        })
    } else {
        Ok(Held {
            operand,
            taken: None,
        })
    }
}
