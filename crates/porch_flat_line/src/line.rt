//! The lines of a program that are no commands.

ghost use Rattle.std.specs.Prelude.{◌≡◌, ◌++◌, ◌∷◌, [], codes, map, OnOk};
ghost use Rattle.porch_types.specs.Kinds.{kind_number};
ghost use Rattle.porch_flat.specs.whole.Lines.{function_line};
ghost use Rattle.porch_flat_line.specs.Arguments.{argument_of};
ghost use Rattle.porch_flat_line.specs.Text.{number, result_type, row, row_text, type_row, init_row, line_text};

use crate::put::{
    Argument, number, put_argument, put_end, put_four, put_further, put_numbers, put_three,
    put_two, put_word,
};
use crate::word::Word;
use porch_flat::whole::Function;
use porch_flat::{Init, Operand};
use porch_types::Ty;
use std::alloc::AllocError;

fn put_struct(out: &mut Vec<u8>, n: u64, members: &[u32]) -> Result<(), AllocError>
    ensures { OnOk result (out.new.items ≡ out.old.items
        ++ row_text (row Word.Struct (number n ∷ map number members.now))) }
{
    put_word(out, Word::Struct)?;
    put_argument(out, Argument::Number(n))?;
    put_numbers(out, members)?;
    put_end(out)
}

/// Writes the line of type number `n`.
pub fn put_type(out: &mut Vec<u8>, n: u64, ty: &Ty) -> Result<(), AllocError>
    ensures { OnOk result (out.new.items ≡ out.old.items ++ row_text (type_row n ty.now)) }
{
    match ty {
        Ty::Whole { kind } => {
            put_two(
                out,
                Word::Pointer,
                Argument::Number(n),
                number(kind.number()),
            )
        }
        Ty::Pointer { to } => put_two(out, Word::Pointer, Argument::Number(n), number(*to)),
        Ty::Array { of, count } => {
            put_three(
                out,
                Word::Array,
                Argument::Number(n),
                number(*of),
                number(*count),
            )
        }
        Ty::Struct { members } => put_struct(out, n, members.as_slice()),
    }
}

/// Writes the line of an initial value of global number `n`.
pub fn put_init(out: &mut Vec<u8>, n: u64, init: Init) -> Result<(), AllocError>
    ensures { OnOk result (out.new.items ≡ out.old.items ++ row_text (init_row n init)) }
{
    match init {
        Init::Value(leaf, value) => {
            put_three(
                out,
                Word::Init,
                Argument::Number(n),
                number(leaf),
                Argument::Operand(Operand::Constant(value)),
            )
        }
        Init::Address(leaf, other, place) => {
            put_four(
                out,
                Word::InitA,
                Argument::Number(n),
                number(leaf),
                number(other),
                number(place),
            )
        }
    }
}

fn argument_of_result(ty: Option<u32>) -> Argument
    ensures { argument_of result ≡ result_type ty }
{
    match ty {
        None => Argument::Void,
        Some(ty) => number(ty),
    }
}

/// Writes the first line of function number `n`.
pub fn put_head(out: &mut Vec<u8>, n: u64, function: &Function) -> Result<(), AllocError>
    ensures { OnOk result (out.new.items
        ≡ out.old.items ++ line_text (function_line n function.now)) }
{
    put_word(out, Word::Function)?;
    put_argument(out, Argument::Number(n))?;
    out.extend_from_slice(b", ")?;
    out.extend_from_slice(function.name.as_slice())?;
    put_further(out, argument_of_result(function.result))?;
    put_further(out, number(function.params))?;
    put_end(out)
}
