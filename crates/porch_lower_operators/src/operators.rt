//! The code of operators and tests.

ghost use Rattle.std.specs.Prelude.{◌≡◌, [], ◌∷◌, IfOk, OnOk};
ghost use Rattle.porch_types.specs.Kinds.{kind_number};
ghost use Rattle.porch_lowering.specs.Operators.{branch_on, negate, operate, operate_unary, promote};
ghost use Rattle.porch_emitter.specs.Made.{and_taken, made_of, with_code, with_commands, with_count, with_held};
ghost use Rattle.porch_lower_operators.specs.inside.Tests.{branch_on_test, test_command};

use crate::commands::{operator_command, unary_command, var_of};
use crate::conversions::{Held, alone, convert_if, fails, use_if};
use crate::kinds::{is_converted, is_small, left_type, right_type};
use porch_emitter::Emitter;
use porch_flat::flat::Operand;
use porch_flat::whole::Command;
use porch_typed::{Operator, Unary};
use porch_types::Kind;
use std::alloc::AllocError;

/// An operand, and the type of its value.
#[derive(Clone, Copy, Debug)]
pub struct Typed {
    pub operand: Operand,
    pub ty: u32,
}

/// An operator between two operands. Where the conversion of one may meet undefined behaviour, the other one is
/// used before.
pub fn operate(
    emitter: &mut Emitter,
    operator: Operator,
    target: u32,
    left: Typed,
    right: Typed,
) -> Result<(), AllocError>
    ensures { OnOk result (made_of emitter.new ≡ with_code (made_of emitter.old)
        (operate (made_of emitter.old).start operator target left.operand left.ty right.operand
        right.ty (made_of emitter.old).used (made_of emitter.old).label)) }
{
    let to = left_type(operator, left.ty);
    let right_to = right_type(operator, right.ty);
    let first = is_converted(left.operand, left.ty, to);
    let second = is_converted(right.operand, right.ty, right_to);
    use_if(emitter, fails(first, left.ty, to), right.operand)?;
    use_if(
        emitter,
        alone(first, fails(second, right.ty, right_to)),
        left.operand,
    )?;
    let a = convert_if(emitter, first, left.operand, to)?;
    let b = convert_if(emitter, second, right.operand, right_to)?;
    put_last(
        emitter,
        operator_command(operator, target, a.operand, b.operand),
    )?;
    emitter.let_go(b.taken);
    emitter.let_go(a.taken);
    Ok(())
}

/// `+`, `-` or `~` of a value that is converted to a kind first. The conversion alone is all that `+` does.
pub fn operate_unary(
    emitter: &mut Emitter,
    operator: Unary,
    target: u32,
    kind: Kind,
    operand: Typed,
) -> Result<(), AllocError>
    ensures { OnOk result (made_of emitter.new ≡ with_code (made_of emitter.old)
        (operate_unary (made_of emitter.old).start operator target (kind_number kind)
        operand.operand operand.ty (made_of emitter.old).used (made_of emitter.old).label)) }
{
    let to = kind.number();
    let converted = is_converted(operand.operand, operand.ty, to);
    let x = convert_if(emitter, converted, operand.operand, to)?;
    put_last(emitter, unary_command(operator, target, x.operand))?;
    emitter.let_go(x.taken);
    Ok(())
}

/// A variable's value as an int or a wide value: a small kind is converted.
pub fn promote(emitter: &mut Emitter, operand: Typed) -> Result<Held, AllocError>
    ensures operand { IfOk result (λ h. h.operand ≡ (promote (made_of emitter.old).start
        operand.ty operand.operand (made_of emitter.old).used
        (made_of emitter.old).label).operand) }
    ensures taken { IfOk result (λ h. (promote (made_of emitter.old).start
        operand.ty operand.operand (made_of emitter.old).used (made_of emitter.old).label).used
        ≡ and_taken h.taken (made_of emitter.old).used) }
    ensures made { OnOk result (made_of emitter.new ≡ with_held (made_of emitter.old)
        (promote (made_of emitter.old).start operand.ty operand.operand
        (made_of emitter.old).used (made_of emitter.old).label)) }
{
    let held = convert_if(
        emitter,
        is_small(operand.ty),
        operand.operand,
        Kind::Int.number(),
    )?;
    emitter.count();
    Ok(held)
}

/// Whether a value is 0 or null, which a variable becomes 1 for.
pub fn negate(emitter: &mut Emitter, target: u32, operand: Typed) -> Result<(), AllocError>
    ensures { OnOk result (made_of emitter.new ≡ with_code (made_of emitter.old)
        (negate (made_of emitter.old).start target operand.ty operand.operand
        (made_of emitter.old).used (made_of emitter.old).label)) }
{
    let x = promote(emitter, operand)?;
    emitter.push(Command::Eq(target, x.operand, Operand::Constant(0)))?;
    emitter.let_go(x.taken);
    Ok(())
}

/// On at a label where a value is true: an int is tested itself, and others against 0.
pub fn branch_on(emitter: &mut Emitter, operand: Typed, to: u32) -> Result<(), AllocError>
    ensures { OnOk result (made_of emitter.new ≡ with_code (made_of emitter.old)
        (branch_on (made_of emitter.old).start operand.ty operand.operand to
        (made_of emitter.old).used (made_of emitter.old).label)) }
{
    if operand.ty == Kind::Int.number() {
        put_last(emitter, Command::If(operand.operand, to))
    } else {
        branch_on_test(emitter, operand, to)
    }
}

// The same for what is no int.
fn branch_on_test(emitter: &mut Emitter, operand: Typed, to: u32) -> Result<(), AllocError>
    ensures { OnOk result (made_of emitter.new ≡ with_code (made_of emitter.old)
        (branch_on_test (made_of emitter.old).start operand.ty operand.operand to
        (made_of emitter.old).used (made_of emitter.old).label)) }
{
    let int = Kind::Int.number();
    let temporary = emitter.take(int)?;
    emitter.push(test_command(temporary, operand))?;
    put_last(emitter, Command::If(Operand::Var(temporary), to))?;
    emitter.give_back(int);
    Ok(())
}

// An int that is true where the value is.
fn test_command(target: u32, operand: Typed) -> Command
    ensures { result ≡ test_command target operand.ty operand.operand }
{
    if is_small(operand.ty) {
        Command::Cast(target, var_of(operand.operand))
    } else {
        Command::Ne(target, operand.operand, Operand::Constant(0))
    }
}

// The last command of code, where what is in use counts.
fn put_last(emitter: &mut Emitter, command: Command) -> Result<(), AllocError>
    ensures { OnOk result (made_of emitter.new
        ≡ with_count (with_commands (made_of emitter.old) (command ∷ []))) }
{
    emitter.push(command)?;
    emitter.count();
    Ok(())
}
