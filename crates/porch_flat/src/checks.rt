//! Whether a program breaks a rule.

ghost use Rattle.std.specs.Prelude.{◌≡◌, ◌<◌, ◌⊎◌, ◌↔◌, ◌^◌, ◌+◌, ℕ, All, IsTrue, IfOk, Some, None, length, slice_get, codes};
ghost use Rattle.porch_types.specs.declared.shapes.Kind.TheVariants.{Int};
ghost use Rattle.porch_types.specs.Leaves.{kind_types};
ghost use Rattle.porch_values.specs.Integers.{in_range};
ghost use Rattle.porch_flat.specs.Labelled.{place_in};
ghost use Rattle.porch_flat.specs.Places.{place_of_label};
ghost use Rattle.porch_flat.specs.Valid.{IsOperand, HasParts, Leads, GoesOnWell, IsFunction, IsMain, IsValid, int_type};
ghost use Rattle.porch_flat.specs.inside.Checked.{IsCommand, AreCommands, HasMainHead};

use crate::flat::{Command, Flat, Function, Operand};
use crate::labels::Labels;
use porch_types::{Kind, Types};
use porch_values::{greatest, least};
use std::alloc::{AllocError, Global};

fn is_int(number: i128) -> bool
    ensures { result ≡ in_range Int 32 number }
{
    least(Kind::Int, 32) <= number && number <= greatest(Kind::Int, 32)
}

fn has_variable(function: &Function, variable: u32) -> bool
    ensures { IsTrue result ↔ (variable < length function.now.vars) }
{
    (variable as usize) < function.vars.len()
}

fn is_operand(function: &Function, operand: Operand) -> bool
    ensures { IsTrue result ↔ IsOperand function.now operand }
{
    match operand {
        Operand::Var(variable) => has_variable(function, variable),
        Operand::Constant(number) => is_int(number),
    }
}

fn is_unary(function: &Function, variable: u32, operand: Operand) -> bool
    ensures { IsTrue result
        ↔ ((variable < length function.now.vars) × IsOperand function.now operand) }
{
    has_variable(function, variable) && is_operand(function, operand)
}

fn is_binary(function: &Function, variable: u32, left: Operand, right: Operand) -> bool
    ensures { IsTrue result ↔ ((variable < length function.now.vars) × IsOperand function.now left
        × IsOperand function.now right) }
{
    has_variable(function, variable) && is_operand(function, left) && is_operand(function, right)
}

fn is_branch(function: &Function, operand: Operand, label: u32) -> bool
    ensures { IsTrue result ↔ (IsOperand function.now operand × (label < 2 ^ 31)) }
{
    is_operand(function, operand) && is_label_number(label)
}

fn is_label_number(label: u32) -> bool
    ensures { IsTrue result ↔ (label < 2 ^ 31) }
{
    label < 0x8000_0000
}

fn is_returned(function: &Function, value: Option<Operand>) -> bool
    ensures { IsTrue result ↔ HasParts function.now (Command.Return value) }
{
    match value {
        Some(operand) => is_operand(function, operand),
        None => true,
    }
}

// Whether the variables, constants and numbers of labels that a command names are in range.
fn has_parts(function: &Function, command: Command) -> bool
    ensures { IsTrue result ↔ HasParts function.now command }
{
    match command {
        Command::Move(variable, operand) => is_unary(function, variable, operand),
        Command::Add(variable, left, right) => is_binary(function, variable, left, right),
        Command::Sub(variable, left, right) => is_binary(function, variable, left, right),
        Command::Mul(variable, left, right) => is_binary(function, variable, left, right),
        Command::Lt(variable, left, right) => is_binary(function, variable, left, right),
        Command::Char(variable, operand) => is_unary(function, variable, operand),
        Command::Label(label) => is_label_number(label),
        Command::Jump(label) => is_label_number(label),
        Command::If(operand, label) => is_branch(function, operand, label),
        Command::Turn => true,
        Command::Return(value) => is_returned(function, value),
    }
}

fn is_turn(command: Option<Command>) -> bool
    ensures { IsTrue result ↔ (command ≡ Some Command.Turn) }
{
    match command {
        Some(Command::Turn) => true,
        Some(_) => false,
        None => false,
    }
}

fn command_at(commands: &[Command], place: usize) -> Option<Command>
    ensures { result ≡ slice_get commands.now place }
{
    commands.get(place).copied()
}

// Whether a jump from one place may lead to another.
fn leads_to(commands: &[Command], from: usize, to: usize) -> bool
    requires { to < length commands.now }
    ensures { IsTrue result
        ↔ ((from < to) ⊎ (slice_get commands.now (to + 1) ≡ Some Command.Turn)) }
{
    from < to || is_turn(command_at(commands, to + 1))
}

#[tactic(auto, using(crate::proofs::Placed::place_within))]
fn leads(commands: &[Command], labels: &Labels, from: usize, label: u32) -> bool
    requires { (n : ℕ) → place_in labels.now n ≡ place_of_label commands.now n }
    ensures { IsTrue result ↔ Leads commands.now from label }
{
    match labels.place(label) {
        Some(to) => leads_to(commands, from, to),
        None => false,
    }
}

fn stands_first(commands: &[Command], labels: &Labels, at: usize, label: u32) -> bool
    requires { (n : ℕ) → place_in labels.now n ≡ place_of_label commands.now n }
    ensures { IsTrue result ↔ (place_of_label commands.now label ≡ Some at) }
{
    labels.place(label) == Some(at)
}

// Whether a jump leads where it may, and whether a label stands only once.
fn goes_on_well(commands: &[Command], labels: &Labels, at: usize, command: Command) -> bool
    requires { (n : ℕ) → place_in labels.now n ≡ place_of_label commands.now n }
    ensures { IsTrue result ↔ GoesOnWell commands.now at command }
{
    match command {
        Command::Label(label) => stands_first(commands, labels, at, label),
        Command::Jump(label) => leads(commands, labels, at, label),
        Command::If(_, label) => leads(commands, labels, at, label),
        Command::Move(_, _)
        | Command::Add(_, _, _)
        | Command::Sub(_, _, _)
        | Command::Mul(_, _, _)
        | Command::Lt(_, _, _)
        | Command::Char(_, _)
        | Command::Turn
        | Command::Return(_) => true,
    }
}

fn is_command(function: &Function, labels: &Labels, at: usize, command: &Command) -> bool
    requires { (n : ℕ) → place_in labels.now n ≡ place_of_label function.now.commands n }
    ensures { IsTrue result ↔ IsCommand function.now at command.now }
{
    has_parts(function, *command)
        && goes_on_well(function.commands.as_slice(), labels, at, *command)
}

fn are_commands(function: &Function, labels: &Labels) -> bool
    requires { (n : ℕ) → place_in labels.now n ≡ place_of_label function.now.commands n }
    ensures { IsTrue result ↔ AreCommands function.now (length function.now.commands) }
{
    let commands = function.commands.as_slice();
    for (at, command) in commands.iter().enumerate() {
        if !is_command(function, labels, at, command) {
            return false;
        }
    }
    true
}

fn is_function(alloc: Global, function: &Function) -> Result<bool, AllocError>
    ensures { IfOk result (λ valid. IsTrue valid ↔ IsFunction function.now) }
{
    if function.vars.len() > 0x8000_0000 {
        return Ok(false);
    }
    let labels = Labels::new(alloc, function.commands.as_slice())?;
    Ok(are_commands(function, &labels))
}

fn has_main_head(function: &Function) -> bool
    ensures { IsTrue result ↔ HasMainHead function.now }
{
    is_main_name(function.name.as_slice())
        && is_int_type(function.result)
        && function.params == 0
        && are_ints(function.vars.as_slice())
}

fn is_main_name(name: &[u8]) -> bool
    ensures { IsTrue result ↔ (name.now ≡ codes "main") }
{
    name == "main".as_bytes()
}

fn is_int_type(ty: Option<u32>) -> bool
    ensures { IsTrue result ↔ (ty ≡ Some int_type) }
{
    ty == Some(4)
}

fn are_ints(types: &[u32]) -> bool
    ensures { IsTrue result ↔ All (λ ty. ty ≡ int_type) types.now }
{
    types.iter().all(|ty| *ty == 4)
}

fn is_main(alloc: Global, function: &Function) -> Result<bool, AllocError>
    ensures { IfOk result (λ valid. IsTrue valid ↔ IsMain function.now) }
{
    if !has_main_head(function) {
        return Ok(false);
    }
    is_function(alloc, function)
}

fn are_kinds(types: &Types) -> bool
    ensures { IsTrue result ↔ (types.now ≡ kind_types) }
{
    types.len() == 8
}

/// Whether a program breaks no rule.
pub fn is_valid(alloc: Global, flat: &Flat) -> Result<bool, AllocError>
    ensures { IfOk result (λ valid. IsTrue valid ↔ IsValid flat.now) }
{
    if !are_kinds(&flat.types) || !flat.globals.is_empty() || flat.functions.len() != 1 {
        return Ok(false);
    }
    match flat.functions.get(0) {
        Some(main) => is_main(alloc, main),
        None => Ok(false),
    }
}
