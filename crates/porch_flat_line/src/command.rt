//! Commands as they are written.

ghost use Rattle.std.specs.Prelude.{◌≡◌, ◌++◌, ◌∷◌, map, OnOk};
ghost use Rattle.porch_flat_line.specs.Text.{number, target, operand, operand_list, variable, command_row, row, row_text};
ghost use Rattle.porch_flat_line.specs.Arguments.{argument_of};

use crate::put::{
    Argument, number, put_argument, put_end, put_further, put_none, put_one, put_operands,
    put_three, put_two, put_variables, put_word, variable,
};
use crate::word::Word;
use porch_flat::Operand;
use porch_flat::whole::Command;
use std::alloc::AllocError;

fn argument_of_target(to: Option<u32>) -> Argument
    ensures { argument_of result ≡ target to }
{
    match to {
        None => Argument::Nowhere,
        Some(number) => variable(number),
    }
}

fn put_call(
    out: &mut Vec<u8>,
    to: Option<u32>,
    function: u32,
    operands: &[Operand],
) -> Result<(), AllocError>
    ensures { OnOk result (out.new.items ≡ out.old.items
        ++ row_text (row Word.Call (target to ∷ number function ∷ map operand operands.now))) }
{
    put_word(out, Word::Call)?;
    put_argument(out, argument_of_target(to))?;
    put_further(out, number(function))?;
    put_operands(out, operands)?;
    put_end(out)
}

fn put_return(out: &mut Vec<u8>, value: Option<Operand>) -> Result<(), AllocError>
    ensures { OnOk result (out.new.items
        ≡ out.old.items ++ row_text (row Word.Return (operand_list value))) }
{
    match value {
        None => put_none(out, Word::Return),
        Some(operand) => put_one(out, Word::Return, Argument::Operand(operand)),
    }
}

fn put_all(out: &mut Vec<u8>, word: Word, variables: &[u32]) -> Result<(), AllocError>
    ensures { OnOk result (out.new.items
        ≡ out.old.items ++ row_text (row word (map variable variables.now))) }
{
    put_word(out, word)?;
    put_variables(out, variables)?;
    put_end(out)
}

/// Writes the line of a command.
pub fn put_command(out: &mut Vec<u8>, command: &Command) -> Result<(), AllocError>
    ensures { OnOk result (out.new.items
        ≡ out.old.items ++ row_text (command_row command.now)) }
{
    match command {
        Command::Move(a, b) => put_two(out, Word::Move, variable(*a), Argument::Operand(*b)),
        Command::Cast(a, b) => put_two(out, Word::Cast, variable(*a), variable(*b)),
        Command::Add(a, b, c) => put_three(
            out,
            Word::Add,
            variable(*a),
            Argument::Operand(*b),
            Argument::Operand(*c),
        ),
        Command::Sub(a, b, c) => put_three(
            out,
            Word::Sub,
            variable(*a),
            Argument::Operand(*b),
            Argument::Operand(*c),
        ),
        Command::Mul(a, b, c) => put_three(
            out,
            Word::Mul,
            variable(*a),
            Argument::Operand(*b),
            Argument::Operand(*c),
        ),
        Command::Div(a, b, c) => put_three(
            out,
            Word::Div,
            variable(*a),
            Argument::Operand(*b),
            Argument::Operand(*c),
        ),
        Command::Rem(a, b, c) => put_three(
            out,
            Word::Rem,
            variable(*a),
            Argument::Operand(*b),
            Argument::Operand(*c),
        ),
        Command::And(a, b, c) => put_three(
            out,
            Word::And,
            variable(*a),
            Argument::Operand(*b),
            Argument::Operand(*c),
        ),
        Command::Or(a, b, c) => put_three(
            out,
            Word::Or,
            variable(*a),
            Argument::Operand(*b),
            Argument::Operand(*c),
        ),
        Command::Xor(a, b, c) => put_three(
            out,
            Word::Xor,
            variable(*a),
            Argument::Operand(*b),
            Argument::Operand(*c),
        ),
        Command::Shl(a, b, c) => put_three(
            out,
            Word::Shl,
            variable(*a),
            Argument::Operand(*b),
            Argument::Operand(*c),
        ),
        Command::Shr(a, b, c) => put_three(
            out,
            Word::Shr,
            variable(*a),
            Argument::Operand(*b),
            Argument::Operand(*c),
        ),
        Command::Not(a, b) => put_two(out, Word::Not, variable(*a), Argument::Operand(*b)),
        Command::Lt(a, b, c) => put_three(
            out,
            Word::Lt,
            variable(*a),
            Argument::Operand(*b),
            Argument::Operand(*c),
        ),
        Command::Le(a, b, c) => put_three(
            out,
            Word::Le,
            variable(*a),
            Argument::Operand(*b),
            Argument::Operand(*c),
        ),
        Command::Eq(a, b, c) => put_three(
            out,
            Word::Eq,
            variable(*a),
            Argument::Operand(*b),
            Argument::Operand(*c),
        ),
        Command::Ne(a, b, c) => put_three(
            out,
            Word::Ne,
            variable(*a),
            Argument::Operand(*b),
            Argument::Operand(*c),
        ),
        Command::Local(a, b, c) => put_three(
            out,
            Word::Local,
            variable(*a),
            variable(*b),
            number(*c),
        ),
        Command::GlobalA(a, b, c) => put_three(
            out,
            Word::GlobalA,
            variable(*a),
            number(*b),
            number(*c),
        ),
        Command::Member(a, b, c) => put_three(
            out,
            Word::Member,
            variable(*a),
            variable(*b),
            number(*c),
        ),
        Command::Step(a, b, c) => put_three(
            out,
            Word::Step,
            variable(*a),
            variable(*b),
            Argument::Operand(*c),
        ),
        Command::Back(a, b, c) => put_three(
            out,
            Word::Back,
            variable(*a),
            variable(*b),
            Argument::Operand(*c),
        ),
        Command::Diff(a, b, c) => put_three(
            out,
            Word::Diff,
            variable(*a),
            variable(*b),
            variable(*c),
        ),
        Command::Load(a, b) => put_two(out, Word::Load, variable(*a), variable(*b)),
        Command::Store(a, b) => put_two(out, Word::Store, variable(*a), Argument::Operand(*b)),
        Command::Copy(a, b) => put_two(out, Word::Copy, variable(*a), variable(*b)),
        Command::Kill(a) => put_one(out, Word::Kill, variable(*a)),
        Command::Alloc(a, b) => put_two(out, Word::Alloc, variable(*a), Argument::Operand(*b)),
        Command::Calloc(a, b) => put_two(out, Word::Calloc, variable(*a), Argument::Operand(*b)),
        Command::Free(a) => put_one(out, Word::Free, variable(*a)),
        Command::Char(a, b) => put_two(out, Word::Char, variable(*a), Argument::Operand(*b)),
        Command::Dec(a, b) => put_two(out, Word::Dec, variable(*a), Argument::Operand(*b)),
        Command::Hex(a, b) => put_two(out, Word::Hex, variable(*a), Argument::Operand(*b)),
        Command::Text(a, b) => put_two(out, Word::Text, variable(*a), variable(*b)),
        Command::Label(a) => put_one(out, Word::Label, number(*a)),
        Command::Jump(a) => put_one(out, Word::Jump, number(*a)),
        Command::If(a, b) => put_two(out, Word::If, Argument::Operand(*a), number(*b)),
        Command::Turn => put_none(out, Word::Turn),
        Command::Table(a, b) => put_two(out, Word::Table, number(*a), number(*b)),
        Command::Saved(a, b) => put_two(out, Word::Saved, number(*a), number(*b)),
        Command::Checkpoint => put_none(out, Word::Checkpoint),
        Command::Call(to, function, operands) => {
            put_call(out, *to, *function, operands.as_slice())
        }
        Command::Return(value) => put_return(out, *value),
        Command::Restore(variables) => put_all(out, Word::Restore, variables.as_slice()),
        Command::Push(variables) => put_all(out, Word::Push, variables.as_slice()),
    }
}
