//! The command of each operator, whose operands are converted.

ghost use Rattle.std.specs.Prelude.{◌≡◌, ℕ};
ghost use Rattle.porch_lowering.specs.Operators.{arithmetic, comparison, operator_command, unary_command, var_of};

use porch_flat::flat::Operand;
use porch_flat::whole::Command;
use porch_typed::{Comparison, Operator, Unary};
use porch_values::Op;

/// The variable that an operand is.
pub fn var_of(operand: Operand) -> u32
    ensures { result ≡ var_of operand }
{
    match operand {
        Operand::Var(v) => v,
        Operand::Constant(_) => 0,
    }
}

/// The command of an operator of arithmetic.
pub fn arithmetic(op: Op, target: u32, left: Operand, right: Operand) -> Command
    ensures { result ≡ arithmetic op target left right }
{
    match op {
        Op::Add => Command::Add(target, left, right),
        Op::Sub => Command::Sub(target, left, right),
        Op::Mul => Command::Mul(target, left, right),
        Op::Div => Command::Div(target, left, right),
        Op::Rem => Command::Rem(target, left, right),
        Op::And => Command::And(target, left, right),
        Op::Or => Command::Or(target, left, right),
        Op::Xor => Command::Xor(target, left, right),
        Op::Shl => Command::Shl(target, left, right),
        Op::Shr => Command::Shr(target, left, right),
    }
}

/// The command of a comparison. Greater is less with the operands changed over.
pub fn comparison(how: Comparison, target: u32, left: Operand, right: Operand) -> Command
    ensures { result ≡ comparison how target left right }
{
    match how {
        Comparison::Less => Command::Lt(target, left, right),
        Comparison::Greater => Command::Lt(target, right, left),
        Comparison::LessEqual => Command::Le(target, left, right),
        Comparison::GreaterEqual => Command::Le(target, right, left),
        Comparison::Equal => Command::Eq(target, left, right),
        Comparison::NotEqual => Command::Ne(target, left, right),
    }
}

/// The command of an operator between two operands.
pub fn operator_command(operator: Operator, target: u32, left: Operand, right: Operand) -> Command
    ensures { result ≡ operator_command operator target left right }
{
    match operator {
        Operator::Arithmetic(op, _) => arithmetic(op, target, left, right),
        Operator::Shift(op, _) => arithmetic(op, target, left, right),
        Operator::Compare(how, _) => comparison(how, target, left, right),
        Operator::ComparePointers(how, _) => comparison(how, target, left, right),
        Operator::Forward(_) => Command::Step(target, var_of(left), right),
        Operator::Back(_) => Command::Back(target, var_of(left), right),
        Operator::ForwardOf(_) => Command::Step(target, var_of(right), left),
        Operator::Difference(_) => Command::Diff(target, var_of(left), var_of(right)),
    }
}

/// The command of `+`, `-` or `~` of an operand in its kind.
pub fn unary_command(operator: Unary, target: u32, operand: Operand) -> Command
    ensures { (start : ℕ → ℕ) → result ≡ unary_command start operator target operand }
{
    match operator {
        Unary::Plus => Command::Move(target, operand),
        Unary::Minus => Command::Sub(target, Operand::Constant(0), operand),
        Unary::Complement => Command::Not(target, operand),
    }
}
