//! Forms as they are written: a word and arguments.

ghost use Rattle.std.specs.Prelude.{◌≡◌, ◌++◌, ◌∷◌, [], codes, map, OnOk};
ghost use Rattle.std.specs.Fmt.{decimal, signed_decimal};
ghost use Rattle.porch_flat_line.specs.Words.{word_text};
ghost use Rattle.porch_flat_line.specs.Text.{operand, number, variable, argument_text, arguments_text, further_text, row, row_text};
ghost use Rattle.porch_flat_line.specs.Arguments.{argument_of};

use crate::word::{Word, text_of_word};
use itoa::Buffer;
use porch_flat::Operand;
use std::alloc::AllocError;

/// An argument of a form, but for names.
#[derive(Clone, Copy, Debug, PartialEq, Eq)]
pub enum Argument {
    Number(u64),
    Operand(Operand),
    /// No variable for a result.
    Nowhere,
    /// No type of a result.
    Void,
}

/// The argument that is a variable.
pub fn variable(number: u32) -> Argument
    ensures { argument_of result ≡ variable number }
{
    Argument::Operand(Operand::Var(number))
}

/// The argument that is a number.
pub fn number(value: u32) -> Argument
    ensures { argument_of result ≡ number value }
{
    Argument::Number(u64::from(value))
}

fn put_number(out: &mut Vec<u8>, number: u64) -> Result<(), AllocError>
    ensures { OnOk result (out.new.items ≡ out.old.items ++ decimal number) }
{
    let mut digits = Buffer::new();
    out.extend_from_slice(digits.format(number).as_bytes())
}

fn put_constant(out: &mut Vec<u8>, constant: i128) -> Result<(), AllocError>
    ensures { OnOk result (out.new.items ≡ out.old.items ++ signed_decimal constant) }
{
    let mut digits = Buffer::new();
    out.extend_from_slice(digits.format(constant).as_bytes())
}

fn put_operand(out: &mut Vec<u8>, read: Operand) -> Result<(), AllocError>
    ensures { OnOk result (out.new.items ≡ out.old.items ++ argument_text (operand read)) }
{
    match read {
        Operand::Var(number) => {
            out.push(b'v')?;
            put_number(out, u64::from(number))
        }
        Operand::Constant(constant) => put_constant(out, constant),
    }
}

/// Writes an argument.
pub(crate) fn put_argument(out: &mut Vec<u8>, argument: Argument) -> Result<(), AllocError>
    ensures { OnOk result (out.new.items ≡ out.old.items ++ argument_text (argument_of argument)) }
{
    match argument {
        Argument::Number(number) => put_number(out, number),
        Argument::Operand(operand) => put_operand(out, operand),
        Argument::Nowhere => out.extend_from_slice(b"_"),
        Argument::Void => out.extend_from_slice(b"void"),
    }
}

/// Writes a further argument, behind a comma.
pub(crate) fn put_further(out: &mut Vec<u8>, argument: Argument) -> Result<(), AllocError>
    ensures { OnOk result (out.new.items
        ≡ out.old.items ++ (codes ", " ++ argument_text (argument_of argument))) }
{
    out.extend_from_slice(b", ")?;
    put_argument(out, argument)
}

/// Begins a form.
pub(crate) fn put_word(out: &mut Vec<u8>, word: Word) -> Result<(), AllocError>
    ensures { OnOk result (out.new.items ≡ out.old.items ++ (word_text word ++ codes "(")) }
{
    out.extend_from_slice(text_of_word(word))?;
    out.extend_from_slice(b"(")
}

/// Ends a form and its line.
pub(crate) fn put_end(out: &mut Vec<u8>) -> Result<(), AllocError>
    ensures { OnOk result (out.new.items ≡ out.old.items ++ codes ");\n") }
{
    out.extend_from_slice(b");\n")
}

/// Writes a line without arguments.
pub fn put_none(out: &mut Vec<u8>, word: Word) -> Result<(), AllocError>
    ensures { OnOk result (out.new.items ≡ out.old.items ++ row_text (row word [])) }
{
    put_word(out, word)?;
    put_end(out)
}

/// Writes a line of one argument.
pub(crate) fn put_one(out: &mut Vec<u8>, word: Word, a: Argument) -> Result<(), AllocError>
    ensures { OnOk result (out.new.items
        ≡ out.old.items ++ row_text (row word (argument_of a ∷ []))) }
{
    put_word(out, word)?;
    put_argument(out, a)?;
    put_end(out)
}

/// Writes a line of two arguments.
pub fn put_two(out: &mut Vec<u8>, word: Word, a: Argument, b: Argument) -> Result<(), AllocError>
    ensures { OnOk result (out.new.items
        ≡ out.old.items ++ row_text (row word (argument_of a ∷ argument_of b ∷ []))) }
{
    put_word(out, word)?;
    put_argument(out, a)?;
    put_further(out, b)?;
    put_end(out)
}

/// Writes a line of three arguments.
pub(crate) fn put_three(
    out: &mut Vec<u8>,
    word: Word,
    a: Argument,
    b: Argument,
    c: Argument,
) -> Result<(), AllocError>
    ensures { OnOk result (out.new.items ≡ out.old.items
        ++ row_text (row word (argument_of a ∷ argument_of b ∷ argument_of c ∷ []))) }
{
    put_word(out, word)?;
    put_argument(out, a)?;
    put_further(out, b)?;
    put_further(out, c)?;
    put_end(out)
}

/// Writes a line of four arguments.
pub(crate) fn put_four(
    out: &mut Vec<u8>,
    word: Word,
    a: Argument,
    b: Argument,
    c: Argument,
    d: Argument,
) -> Result<(), AllocError>
    ensures { OnOk result (out.new.items ≡ out.old.items
        ++ row_text (row word
        (argument_of a ∷ argument_of b ∷ argument_of c ∷ argument_of d ∷ []))) }
{
    put_word(out, word)?;
    put_argument(out, a)?;
    put_further(out, b)?;
    put_further(out, c)?;
    put_further(out, d)?;
    put_end(out)
}

/// Writes further operands, each behind a comma.
pub(crate) fn put_operands(out: &mut Vec<u8>, operands: &[Operand]) -> Result<(), AllocError>
    ensures { OnOk result (out.new.items
        ≡ out.old.items ++ further_text (map operand operands.now)) }
{
    for operand in operands {
        put_further(out, Argument::Operand(*operand))?;
    }
    Ok(())
}

/// Writes further numbers, each behind a comma.
pub(crate) fn put_numbers(out: &mut Vec<u8>, numbers: &[u32]) -> Result<(), AllocError>
    ensures { OnOk result (out.new.items
        ≡ out.old.items ++ further_text (map number numbers.now)) }
{
    for number in numbers {
        put_further(out, Argument::Number(u64::from(*number)))?;
    }
    Ok(())
}

fn put_further_variables(out: &mut Vec<u8>, variables: &[u32]) -> Result<(), AllocError>
    ensures { OnOk result (out.new.items
        ≡ out.old.items ++ further_text (map variable variables.now)) }
{
    for number in variables {
        put_further(out, variable(*number))?;
    }
    Ok(())
}

/// Writes variables with commas between them.
pub(crate) fn put_variables(out: &mut Vec<u8>, variables: &[u32]) -> Result<(), AllocError>
    ensures { OnOk result (out.new.items
        ≡ out.old.items ++ arguments_text (map variable variables.now)) }
{
    match variables {
        [] => Ok(()),
        [first, rest @ ..] => {
            put_argument(out, variable(*first))?;
            put_further_variables(out, rest)
        }
    }
}
