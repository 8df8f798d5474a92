//! The commands for statements.

ghost use Rattle.std.specs.Prelude.{◌≡◌, ◌<◌, ◌+◌, ◌^◌, [], ◌∷◌, ◌++◌, length, map, OnOk};
ghost use Rattle.std.specs.Option.{option_map};
ghost use Rattle.porch_syntax.specs.Tree.{node_of, action_of, actions_of, repeat as loop_of};
ghost use Rattle.porch_flat.specs.declared.flat.Command.TheVariants as command;
ghost use Rattle.porch_lower.specs.Code.{action_code, actions_code, declarations_code, operand_code, operand_in, temps_of, action_temps, actions_temps, declarations_temps};

use crate::expression::{held, into};
use porch_flat::Command;
use porch_syntax::{Expr, Stmt};
use sqlite_items::Items;
use std::alloc::AllocError;

/// A loop before its body.
fn loop_head(body: u32, test: u32, commands: &mut Items<Command>) -> Result<(), AllocError>
    ensures { OnOk result (commands.new
        ≡ commands.old ++ command.Jump test ∷ command.Label body ∷ command.Turn ∷ []) }
{
    commands.push(Command::Jump(test))?;
    commands.push(Command::Label(body))?;
    commands.push(Command::Turn)
}

/// A loop behind its body: the test. Its temporaries begin at a number.
fn loop_test(
    condition: &Expr,
    body: u32,
    test: u32,
    from: u32,
    commands: &mut Items<Command>,
) -> Result<(), AllocError>
    requires { from + 1 + temps_of (node_of condition.now) < 2 ^ 31 }
    ensures { OnOk result (commands.new
        ≡ commands.old ++ command.Label test ∷ (operand_code (node_of condition.now) from
        ++ command.If (operand_in (node_of condition.now) from) body ∷ [])) }
{
    commands.push(Command::Label(test))?;
    let operand = held(condition, from, from + 1, commands)?;
    commands.push(Command::If(operand, body))
}

/// A statement. The variables from a number on are its temporaries.
#[cycle(statement)]
fn statement(statement: &Stmt, from: u32, commands: &mut Items<Command>) -> Result<(), AllocError>
    requires few { from + action_temps (action_of statement.now) < 2 ^ 31 }
    requires short { length commands.old
        + length (action_code from (length commands.old) (action_of statement.now)) < 2 ^ 30 }
    ensures { OnOk result (commands.new
        ≡ commands.old ++ action_code from (length commands.old) (action_of statement.now)) }
{
    match statement {
        Stmt::Assign { variable, value } => into(value, *variable, from, commands),
        Stmt::While { condition, body } => repeat(body.as_slice(), condition, from, commands),
        Stmt::Putchar(expr) => {
            let operand = held(expr, from, from + 1, commands)?;
            commands.push(Command::Char(from, operand))
        }
        Stmt::Return(expr) => {
            let operand = held(expr, from, from + 1, commands)?;
            commands.push(Command::Return(Some(operand)))
        }
    }
}

/// A loop.
#[cycle(statement)]
fn repeat(
    body: &[Stmt],
    condition: &Expr,
    from: u32,
    commands: &mut Items<Command>,
) -> Result<(), AllocError>
    requires few { from
        + action_temps (loop_of (node_of condition.now) (actions_of (map action_of body.now)))
        < 2 ^ 31 }
    requires short { length commands.old
        + length (action_code from (length commands.old)
        (loop_of (node_of condition.now) (actions_of (map action_of body.now)))) < 2 ^ 30 }
    ensures { OnOk result (commands.new
        ≡ commands.old ++ action_code from (length commands.old)
        (loop_of (node_of condition.now) (actions_of (map action_of body.now)))) }
{
    let place = commands.len() as u32;
    let first = 2 * place;
    let test = 2 * place + 1;
    loop_head(first, test, commands)?;
    statements(body, from, commands)?;
    loop_test(condition, first, test, from, commands)
}

/// Statements in order.
#[cycle(statement)]
pub(crate) fn statements(
    statements: &[Stmt],
    from: u32,
    commands: &mut Items<Command>,
) -> Result<(), AllocError>
    requires few { from + actions_temps (actions_of (map action_of statements.now)) < 2 ^ 31 }
    requires short { length commands.old
        + length (actions_code from (length commands.old)
        (actions_of (map action_of statements.now))) < 2 ^ 30 }
    ensures { OnOk result (commands.new
        ≡ commands.old ++ actions_code from (length commands.old)
        (actions_of (map action_of statements.now))) }
{
    for one in statements {
        statement(one, from, commands)?;
    }
    Ok(())
}

/// A declaration: its initialiser is an assignment.
fn declaration(
    initialiser: &Option<Expr>,
    variable: u32,
    from: u32,
    commands: &mut Items<Command>,
) -> Result<(), AllocError>
    requires few { from + declarations_temps (option_map node_of initialiser.now ∷ []) < 2 ^ 31 }
    ensures { OnOk result (commands.new
        ≡ commands.old ++ declarations_code from variable
        (option_map node_of initialiser.now ∷ [])) }
{
    match initialiser {
        None => Ok(()),
        Some(expr) => into(expr, variable, from, commands),
    }
}

/// Declarations in order.
pub(crate) fn declarations(
    declarations: &[Option<Expr>],
    from: u32,
    commands: &mut Items<Command>,
) -> Result<(), AllocError>
    requires few { from + declarations_temps (map (option_map node_of) declarations.now) < 2 ^ 31 }
    requires short { length declarations.now < 2 ^ 30 }
    ensures { OnOk result (commands.new
        ≡ commands.old ++ declarations_code from 0 (map (option_map node_of) declarations.now)) }
{
    for (variable, initialiser) in declarations.iter().enumerate() {
        declaration(initialiser, variable as u32, from, commands)?;
    }
    Ok(())
}
