//! Commands, read.

ghost use Rattle.std.specs.Prelude.{◌≡◌, length, IfOk};
ghost use Rattle.porch_flat_text.specs.inside.Numbers.{variable_in, operand_in};
ghost use Rattle.porch_flat_text.specs.inside.Cuts.{first, rest, each_in};
ghost use Rattle.porch_flat_text.specs.inside.Commands.{fixed_command, call_from, command_from};

use crate::cut::next_argument;
use crate::number::{number_in, operand_if_any, operand_in, target_in, variable_in};
use porch_flat::Operand;
use porch_flat::whole::Command;
use porch_flat_line::Word;
use sqlite_items::Items;
use std::alloc::{AllocError, Global};

/// The command of this word, without a list, whose arguments are written so.
fn fixed_command(word: Word, a: &[u8], b: &[u8], c: &[u8]) -> Option<Command>
    ensures { result ≡ fixed_command word a.now b.now c.now }
{
    match word {
        Word::Move => Some(Command::Move(variable_in(a), operand_in(b))),
        Word::Cast => Some(Command::Cast(variable_in(a), variable_in(b))),
        Word::Add => Some(Command::Add(variable_in(a), operand_in(b), operand_in(c))),
        Word::Sub => Some(Command::Sub(variable_in(a), operand_in(b), operand_in(c))),
        Word::Mul => Some(Command::Mul(variable_in(a), operand_in(b), operand_in(c))),
        Word::Div => Some(Command::Div(variable_in(a), operand_in(b), operand_in(c))),
        Word::Rem => Some(Command::Rem(variable_in(a), operand_in(b), operand_in(c))),
        Word::And => Some(Command::And(variable_in(a), operand_in(b), operand_in(c))),
        Word::Or => Some(Command::Or(variable_in(a), operand_in(b), operand_in(c))),
        Word::Xor => Some(Command::Xor(variable_in(a), operand_in(b), operand_in(c))),
        Word::Shl => Some(Command::Shl(variable_in(a), operand_in(b), operand_in(c))),
        Word::Shr => Some(Command::Shr(variable_in(a), operand_in(b), operand_in(c))),
        Word::Not => Some(Command::Not(variable_in(a), operand_in(b))),
        Word::Lt => Some(Command::Lt(variable_in(a), operand_in(b), operand_in(c))),
        Word::Le => Some(Command::Le(variable_in(a), operand_in(b), operand_in(c))),
        Word::Eq => Some(Command::Eq(variable_in(a), operand_in(b), operand_in(c))),
        Word::Ne => Some(Command::Ne(variable_in(a), operand_in(b), operand_in(c))),
        Word::Local => Some(Command::Local(variable_in(a), variable_in(b), number_in(c))),
        Word::GlobalA => Some(Command::GlobalA(variable_in(a), number_in(b), number_in(c))),
        Word::Member => Some(Command::Member(variable_in(a), variable_in(b), number_in(c))),
        Word::Step => Some(Command::Step(variable_in(a), variable_in(b), operand_in(c))),
        Word::Back => Some(Command::Back(variable_in(a), variable_in(b), operand_in(c))),
        Word::Diff => Some(Command::Diff(variable_in(a), variable_in(b), variable_in(c))),
        Word::Load => Some(Command::Load(variable_in(a), variable_in(b))),
        Word::Store => Some(Command::Store(variable_in(a), operand_in(b))),
        Word::Copy => Some(Command::Copy(variable_in(a), variable_in(b))),
        Word::Kill => Some(Command::Kill(variable_in(a))),
        Word::Alloc => Some(Command::Alloc(variable_in(a), operand_in(b))),
        Word::Calloc => Some(Command::Calloc(variable_in(a), operand_in(b))),
        Word::Free => Some(Command::Free(variable_in(a))),
        Word::Char => Some(Command::Char(variable_in(a), operand_in(b))),
        Word::Dec => Some(Command::Dec(variable_in(a), operand_in(b))),
        Word::Hex => Some(Command::Hex(variable_in(a), operand_in(b))),
        Word::Text => Some(Command::Text(variable_in(a), variable_in(b))),
        Word::Label => Some(Command::Label(number_in(a))),
        Word::Jump => Some(Command::Jump(number_in(a))),
        Word::If => Some(Command::If(operand_in(a), number_in(b))),
        Word::Turn => Some(Command::Turn),
        Word::Table => Some(Command::Table(number_in(a), number_in(b))),
        Word::Saved => Some(Command::Saved(number_in(a), number_in(b))),
        Word::Checkpoint => Some(Command::Checkpoint),
        Word::Return => Some(Command::Return(operand_if_any(a))),
        Word::Pointer
        | Word::Array
        | Word::Struct
        | Word::Global
        | Word::Init
        | Word::InitA
        | Word::Function
        | Word::Var
        | Word::Begin
        | Word::End
        | Word::Call
        | Word::Restore
        | Word::Push => None,
    }
}

/// All operands that are written here.
fn operands_in(alloc: Global, inner: &[u8]) -> Result<Items<Operand>, AllocError>
    ensures { IfOk result (λ operands. operands ≡ each_in operand_in (length inner.now) inner.now) }
{
    let mut operands = Vec::new(alloc);
    let mut rest = inner;
    for _ in 0..inner.len() {
        if rest.is_empty() {
            break;
        }
        let (argument, behind) = next_argument(rest);
        operands.push(operand_in(argument))?;
        rest = behind;
    }
    Ok(Items::from_vec(operands))
}

/// All variables that are written here.
fn variables_in(alloc: Global, inner: &[u8]) -> Result<Items<u32>, AllocError>
    ensures { IfOk result
        (λ variables. variables ≡ each_in variable_in (length inner.now) inner.now) }
{
    let mut variables = Vec::new(alloc);
    let mut rest = inner;
    for _ in 0..inner.len() {
        if rest.is_empty() {
            break;
        }
        let (argument, behind) = next_argument(rest);
        variables.push(variable_in(argument))?;
        rest = behind;
    }
    Ok(Items::from_vec(variables))
}

fn call_in(alloc: Global, inner: &[u8]) -> Result<Command, AllocError>
    ensures { IfOk result (λ command. command ≡ call_from inner.now) }
{
    let (to, rest) = next_argument(inner);
    let (function, rest) = next_argument(rest);
    let operands = operands_in(alloc, rest)?;
    Ok(Command::Call(target_in(to), number_in(function), operands))
}

fn restore_in(alloc: Global, inner: &[u8]) -> Result<Command, AllocError>
    ensures { IfOk result (λ command. command
        ≡ Command.Restore (each_in variable_in (length inner.now) inner.now)) }
{
    Ok(Command::Restore(variables_in(alloc, inner)?))
}

fn push_in(alloc: Global, inner: &[u8]) -> Result<Command, AllocError>
    ensures { IfOk result (λ command. command
        ≡ Command.Push (each_in variable_in (length inner.now) inner.now)) }
{
    Ok(Command::Push(variables_in(alloc, inner)?))
}

fn fixed_in(word: Word, inner: &[u8]) -> Option<Command>
    ensures { result ≡ fixed_command word (first inner.now) (first (rest inner.now))
        (first (rest (rest inner.now))) }
{
    let (a, behind) = next_argument(inner);
    let (b, behind) = next_argument(behind);
    let (c, _) = next_argument(behind);
    fixed_command(word, a, b, c)
}

/// The command of this word with these arguments, where the word is that of a command.
pub(crate) fn command_in(
    alloc: Global,
    word: Word,
    inner: &[u8],
) -> Result<Option<Command>, AllocError>
    ensures { IfOk result (λ command. command ≡ command_from word inner.now) }
{
    if matches!(word, Word::Call) {
        Ok(Some(call_in(alloc, inner)?))
    } else if matches!(word, Word::Restore) {
        Ok(Some(restore_in(alloc, inner)?))
    } else if matches!(word, Word::Push) {
        Ok(Some(push_in(alloc, inner)?))
    } else {
        Ok(fixed_in(word, inner))
    }
}
