//! The commands for the value of an expression.

ghost use Rattle.std.specs.Prelude.{◌≡◌, ◌<◌, ◌+◌, ◌^◌, ◌++◌, length, drop, map, OnOk, IfOk, is_some};
ghost use Rattle.porch_syntax.specs.Tree.{node_of, nodes_of, terms_of};
ghost use Rattle.porch_lower.specs.Code.{atom_of, operand_in, left_operand, left_commands, commands_or, by_sign, factor_place as place_of_factor, term_place as place_of_term, into_code, temps_of, factors_temps, terms_temps};
ghost use Rattle.porch_lower.specs.inside.Rows.{factors_from, terms_from};

use porch_flat::{Command, Operand};
use porch_syntax::{Expr, Sign};
use sqlite_items::Items;
use std::alloc::AllocError;

/// A variable or a constant as an operand.
pub(crate) fn atom(expr: &Expr) -> Option<Operand>
    ensures { result ≡ atom_of (node_of expr.now) }
{
    match expr {
        Expr::Variable(variable) => Some(Operand::Var(*variable)),
        Expr::Whole(constant) => Some(Operand::Constant(i128::from(*constant))),
        Expr::Character(byte) => Some(Operand::Constant(i128::from(*byte))),
        Expr::Nested(inner) => atom(inner.get()),
        Expr::Product { .. } => None,
        Expr::Sum { .. } => None,
        Expr::Less { .. } => None,
    }
}

/// A sum or a difference.
fn sum_command(sign: Sign, variable: u32, left: Operand, right: Operand) -> Command
    ensures { result ≡ by_sign sign variable left right }
{
    match sign {
        Sign::Plus => Command::Add(variable, left, right),
        Sign::Minus => Command::Sub(variable, left, right),
    }
}

/// Where the product by a factor of a row goes: the last to the place of the whole, the others to the left temporary.
fn factor_place(factors: &[Expr], index: usize, to: u32, from: u32) -> u32
    requires { index < length factors.now }
    ensures { result ≡ place_of_factor
        (nodes_of (map node_of (drop (index + 1) factors.now))) to from }
{
    if index + 1 == factors.len() { to } else { from }
}

/// Where the sum with a term of a row goes, likewise.
fn term_place(terms: &[(Sign, Expr)], index: usize, to: u32, from: u32) -> u32
    requires { index < length terms.now }
    ensures { result ≡ place_of_term
        (terms_of (map (λ t. (t.0, node_of t.1)) (drop (index + 1) terms.now))) to from }
{
    if index + 1 == terms.len() { to } else { from }
}

/// An expression as an operand: what is no variable and no constant is held in a variable, by way of temporaries from a
/// number on.
#[cycle(expression)]
pub(crate) fn held(
    expr: &Expr,
    to: u32,
    from: u32,
    commands: &mut Items<Command>,
) -> Result<Operand, AllocError>
    requires few { from + temps_of (node_of expr.now) < 2 ^ 31 }
    ensures code { OnOk result (commands.new
        ≡ commands.old ++ commands_or (atom_of (node_of expr.now))
        (into_code (node_of expr.now) to from)) }
    ensures operand { IfOk result (λ operand. operand ≡ operand_in (node_of expr.now) to) }
{
    match atom(expr) {
        Some(operand) => Ok(operand),
        None => {
            into(expr, to, from, commands)?;
            Ok(Operand::Var(to))
        }
    }
}

/// The left operand of an operator: it is held, too, where commands for the right one come in between.
#[cycle(expression)]
fn left(
    expr: &Expr,
    right: Option<Operand>,
    from: u32,
    commands: &mut Items<Command>,
) -> Result<Operand, AllocError>
    requires few { from + 2 + temps_of (node_of expr.now) < 2 ^ 31 }
    ensures code { OnOk result (commands.new
        ≡ commands.old ++ left_commands (is_some right) (atom_of (node_of expr.now))
        (into_code (node_of expr.now) from (from + 2))) }
    ensures operand { IfOk result
        (λ operand. operand ≡ left_operand (is_some right) (atom_of (node_of expr.now)) from) }
{
    match right {
        Some(_) => held(expr, from, from + 2, commands),
        None => {
            into(expr, from, from + 2, commands)?;
            Ok(Operand::Var(from))
        }
    }
}

/// Further factors of a left operand.
#[cycle(expression)]
fn factors(
    factors: &[Expr],
    first: Operand,
    to: u32,
    from: u32,
    commands: &mut Items<Command>,
) -> Result<(), AllocError>
    requires few { from + 2 + factors_temps (nodes_of (map node_of factors.now)) < 2 ^ 31 }
    ensures { OnOk result (commands.new
        ≡ commands.old ++ factors_from first (nodes_of (map node_of factors.now)) to from) }
{
    let mut left = first;
    for (index, factor) in factors.iter().enumerate() {
        let right = held(factor, from + 1, from + 2, commands)?;
        let place = factor_place(factors, index, to, from);
        commands.push(Command::Mul(place, left, right))?;
        left = Operand::Var(from);
    }
    Ok(())
}

/// Further terms of a left operand.
#[cycle(expression)]
fn terms(
    terms: &[(Sign, Expr)],
    first: Operand,
    to: u32,
    from: u32,
    commands: &mut Items<Command>,
) -> Result<(), AllocError>
    requires few { from + 2 + terms_temps (terms_of (map (λ t. (t.0, node_of t.1)) terms.now))
        < 2 ^ 31 }
    ensures { OnOk result (commands.new
        ≡ commands.old ++ terms_from first
        (terms_of (map (λ t. (t.0, node_of t.1)) terms.now)) to from) }
{
    let mut left = first;
    for (index, (sign, term)) in terms.iter().enumerate() {
        let right = held(term, from + 1, from + 2, commands)?;
        let place = term_place(terms, index, to, from);
        commands.push(sum_command(*sign, place, left, right))?;
        left = Operand::Var(from);
    }
    Ok(())
}

/// The value of an expression goes to a variable, by way of temporaries from a number on.
#[cycle(expression)]
pub(crate) fn into(
    expr: &Expr,
    to: u32,
    from: u32,
    commands: &mut Items<Command>,
) -> Result<(), AllocError>
    requires few { from + temps_of (node_of expr.now) < 2 ^ 31 }
    ensures { OnOk result (commands.new ≡ commands.old ++ into_code (node_of expr.now) to from) }
{
    match expr {
        Expr::Variable(variable) => commands.push(Command::Move(to, Operand::Var(*variable))),
        Expr::Whole(constant) => {
            let constant = i128::from(*constant);
            commands.push(Command::Move(to, Operand::Constant(constant)))
        }
        Expr::Character(byte) => {
            let constant = i128::from(*byte);
            commands.push(Command::Move(to, Operand::Constant(constant)))
        }
        Expr::Nested(inner) => into(inner.get(), to, from, commands),
        Expr::Product { first, more } => match more.as_slice() {
            [] => into(first.get(), to, from, commands),
            [second, ..] => {
                let left = left(first.get(), atom(second), from, commands)?;
                factors(more.as_slice(), left, to, from, commands)
            }
        },
        Expr::Sum { first, more } => match more.as_slice() {
            [] => into(first.get(), to, from, commands),
            [(_, second), ..] => {
                let left = left(first.get(), atom(second), from, commands)?;
                terms(more.as_slice(), left, to, from, commands)
            }
        },
        Expr::Less { left: a, right: b } => {
            let left = left(a.get(), atom(b.get()), from, commands)?;
            let right = held(b.get(), from + 1, from + 2, commands)?;
            commands.push(Command::Lt(to, left, right))
        }
    }
}
