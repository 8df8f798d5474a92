//! What a command does, computed from the variables.

ghost use Rattle.std.specs.Prelude.{◌≡◌, IsTrue};
ghost use Rattle.porch_types.specs.declared.shapes.Kind.TheVariants.{Int};
ghost use Rattle.porch_values.specs.Integers.{applied, in_range};
ghost use Rattle.porch_objects.specs.Meaning.{truth, byte_of};
ghost use Rattle.porch_abstract.specs.inside.Effects.{IsInt, AreInts, operand_in, place_of, set_to, moved, operated, compared, shown, branched, ended, returned, effect_of};

use porch_flat::{Command, Labels, Operand};
use porch_types::Kind;
use porch_values::{Act, Op, Widths, apply};

/// What a command does to a state.
#[derive(Clone, Copy, Debug)]
pub(crate) enum Effect {
    /// Goes on behind the command.
    On,
    /// A variable becomes a number.
    Set(u32, i32),
    /// A byte is shown, and a variable becomes 1.
    Show(u32, u8),
    /// Goes on at a place.
    Go(usize),
    /// Counts a turn.
    Count,
    /// Ends the program with a value.
    End(i32),
    /// Meets an undefined act.
    Meet(Act),
}

fn int_of(number: i128) -> i32
    requires { IsTrue (in_range Int 32 number) }
    ensures { result ≡ number }
{
    number as i32
}

fn held(vars: &[Option<i32>], variable: u32) -> Option<i32>
    ensures { result ≡ operand_in vars.now (Operand.Var variable) }
{
    match vars.get(variable as usize).copied() {
        Some(value) => value,
        None => None,
    }
}

fn operand(vars: &[Option<i32>], operand: Operand) -> Option<i32>
    requires { IsInt operand }
    ensures { result ≡ operand_in vars.now operand }
{
    match operand {
        Operand::Var(variable) => held(vars, variable),
        Operand::Constant(number) => Some(int_of(number)),
    }
}

fn moved(variable: u32, value: Option<i32>) -> Effect
    ensures { result ≡ moved variable value }
{
    match value {
        Some(value) => Effect::Set(variable, value),
        None => Effect::Meet(Act::Indeterminate),
    }
}

#[tactic(auto, using(crate::proofs::Ints::int_in_range))]
fn computed(op: Op, left: i32, right: i32, widths: Widths) -> Result<i32, Act>
    ensures { result ≡ applied op Int widths left right }
{
    match apply(op, Kind::Int, i128::from(left), i128::from(right), widths) {
        Ok(value) => Ok(int_of(value)),
        Err(act) => Err(act),
    }
}

fn operated(op: Op, variable: u32, left: Option<i32>, right: Option<i32>, widths: Widths) -> Effect
    ensures { result ≡ operated op widths variable left right }
{
    match left {
        Some(left) => match right {
            Some(right) => match computed(op, left, right, widths) {
                Ok(value) => Effect::Set(variable, value),
                Err(act) => Effect::Meet(act),
            },
            None => Effect::Meet(Act::Indeterminate),
        },
        None => Effect::Meet(Act::Indeterminate),
    }
}

fn less(left: i32, right: i32) -> i32
    ensures { result ≡ truth left right }
{
    if left < right { 1 } else { 0 }
}

fn compared(variable: u32, left: Option<i32>, right: Option<i32>) -> Effect
    ensures { result ≡ compared variable left right }
{
    match left {
        Some(left) => match right {
            Some(right) => Effect::Set(variable, less(left, right)),
            None => Effect::Meet(Act::Indeterminate),
        },
        None => Effect::Meet(Act::Indeterminate),
    }
}

fn low_byte(value: i32) -> u8
    ensures { result ≡ byte_of value }
{
    value.rem_euclid(256).unsigned_abs() as u8
}

fn shown(variable: u32, value: Option<i32>) -> Effect
    ensures { result ≡ shown variable value }
{
    match value {
        Some(value) => Effect::Show(variable, low_byte(value)),
        None => Effect::Meet(Act::Indeterminate),
    }
}

// The place of a label, and the end where there is none.
fn place(labels: &Labels, commands: usize, label: u32) -> usize
    ensures { result ≡ place_of labels.now commands label }
{
    labels.place(label).unwrap_or(commands)
}

fn branched(value: Option<i32>, place: usize) -> Effect
    ensures { result ≡ branched value place }
{
    match value {
        Some(value) => {
            if value == 0 {
                Effect::On
            } else {
                Effect::Go(place)
            }
        }
        None => Effect::Meet(Act::Indeterminate),
    }
}

fn ended(value: Option<i32>) -> Effect
    ensures { result ≡ ended value }
{
    match value {
        Some(value) => Effect::End(value),
        None => Effect::Meet(Act::Indeterminate),
    }
}

fn returned(vars: &[Option<i32>], value: Option<Operand>) -> Effect
    requires { AreInts (Command.Return value) }
    ensures { result ≡ returned vars.now value }
{
    match value {
        Some(value) => ended(operand(vars, value)),
        None => Effect::End(0),
    }
}

/// What a command does, in a function of so many commands.
pub(crate) fn compute(
    command: Command,
    vars: &[Option<i32>],
    labels: &Labels,
    commands: usize,
    widths: Widths,
) -> Effect
    requires { AreInts command }
    ensures { result ≡ effect_of vars.now labels.now commands widths command }
{
    match command {
        Command::Move(variable, a) => moved(variable, operand(vars, a)),
        Command::Add(variable, a, b) => operated(
            Op::Add,
            variable,
            operand(vars, a),
            operand(vars, b),
            widths,
        ),
        Command::Sub(variable, a, b) => operated(
            Op::Sub,
            variable,
            operand(vars, a),
            operand(vars, b),
            widths,
        ),
        Command::Mul(variable, a, b) => operated(
            Op::Mul,
            variable,
            operand(vars, a),
            operand(vars, b),
            widths,
        ),
        Command::Lt(variable, a, b) => compared(variable, operand(vars, a), operand(vars, b)),
        Command::Char(variable, a) => shown(variable, operand(vars, a)),
        Command::Label(_) => Effect::On,
        Command::Jump(label) => Effect::Go(place(labels, commands, label)),
        Command::If(a, label) => branched(operand(vars, a), place(labels, commands, label)),
        Command::Turn => Effect::Count,
        Command::Return(value) => returned(vars, value),
    }
}
