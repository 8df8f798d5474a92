//! What is shown.

ghost use Rattle.std.specs.Prelude.{◌≡◌, ◌≤◌, ◌<◌, ◌+◌, ◌-◌, ◌^◌, ◌∷◌, [], ℕ, List, length, unsigned_abs, pos, IfSome, vec_capacity};
ghost use Rattle.std.specs.Option.{option_map};
ghost use Rattle.std.specs.Fmt.{signed_decimal, digits, digits_onto, digit_glyph};
ghost use Rattle.std.specs.Prelude.{false};
ghost use Rattle.porch_objects.specs.Meaning.{byte_of};
ghost use Rattle.porch_abstract.specs.whole.Machine.{text_of};
ghost use Rattle.porch_heap.specs.Blocks.{HeapState};
ghost use Rattle.porch_bytes.specs.Leaf.{part};
ghost use Rattle.porch_instructions.specs.Instructions.{Lies, AreParts};
ghost use Rattle.porch_operations.specs.Operations.{shows, shows_found, text_from, leads, work};

use crate::operation::Effect;
use itoa::Buffer;
use porch_bytes::access::{Parts, end_of_part};
use porch_bytes::bytes::text_length;
use porch_flat::whole::Display;
use porch_instructions::instruction::{Cell, Context};
use porch_instructions::write_cell;
use porch_values::Act;

/// Shows a number; the variable becomes the number of bytes.
pub(crate) fn show_number(
    here: &Context,
    memory: &mut [u8],
    shown: &mut Vec<u8>,
    target: Cell,
    how: Display,
    number: i128,
) -> Effect
    requires lies { Lies here.now memory.old target }
    requires few { unsigned_abs number < 2 ^ 64 }
    requires room { 64 ≤ vec_capacity shown.old }
    ensures outcome { (heap : HeapState) → leads (work memory.new heap shown.new.items) result
        ≡ shows here.now target (work memory.old heap shown.old.items) (text_of how number) }
    ensures length { length memory.new ≡ length memory.old }
    ensures room { vec_capacity shown.old ≤ vec_capacity shown.new }
{
    keep_number(shown, how, number);
    write_cell(here, memory, target, shown.len() as i128);
    Effect::Shown
}

/// Shows the text from an address on, where it ends in its part of memory; the variable becomes the number of bytes.
#[tactic(auto, using(crate::proofs::Lengths::part_length))]
pub(crate) fn show_text(
    here: &Context,
    memory: &mut [u8],
    shown: &mut Vec<u8>,
    target: Cell,
    at: u64,
) -> Effect
    requires lies { Lies here.now memory.old target }
    requires parts { AreParts here.now.parts memory.old }
    requires room { length memory.old ≤ vec_capacity shown.old }
    ensures outcome { (heap : HeapState) → leads (work memory.new heap shown.new.items) result
        ≡ shows_found here.now target (work memory.old heap shown.old.items)
        (text_from here.now.parts at memory.old) }
    ensures length { length memory.new ≡ length memory.old }
    ensures room { vec_capacity shown.old ≤ vec_capacity shown.new }
{
    match text_at(&here.parts, memory, at) {
        None => Effect::Traps(Act::Address),
        Some(size) => {
            keep_text(memory, at as usize, size, shown);
            write_cell(here, memory, target, size as i128);
            Effect::Shown
        }
    }
}

// How long the text from an address on is.
fn text_at(parts: &Parts, memory: &[u8], at: u64) -> Option<usize>
    requires { AreParts parts.now memory.now }
    ensures text { option_map (λ n. part memory.now at n) result
        ≡ text_from parts.now at memory.now }
    ensures within { IfSome result (λ n. at + n < length memory.now) }
{
    let end = end_of_part(parts, at);
    if end <= at {
        None
    } else {
        text_length(memory, at as usize, end as usize)
    }
}

// Keeps a text as what is shown.
fn keep_text(memory: &[u8], at: usize, size: usize, shown: &mut Vec<u8>)
    requires within { at + size ≤ length memory.now }
    requires room { size ≤ vec_capacity shown.old }
    ensures text { shown.new.items ≡ part memory.now at size }
    ensures room { vec_capacity shown.old ≤ vec_capacity shown.new }
{
    shown.clear();
    let _ = shown.extend_from_slice(&memory[at..at + size]);
}

// Keeps a number as what is shown.
fn keep_number(shown: &mut Vec<u8>, how: Display, number: i128)
    requires few { unsigned_abs number < 2 ^ 64 }
    requires room { 64 ≤ vec_capacity shown.old }
    ensures text { shown.new.items ≡ text_of how number }
    ensures room { vec_capacity shown.old ≤ vec_capacity shown.new }
{
    match how {
        Display::Char => keep_byte(shown, low_byte(number)),
        Display::Dec => keep_decimal(shown, number),
        Display::Hex => keep_hexadecimal(shown, number.unsigned_abs() as u64),
    }
}

fn low_byte(number: i128) -> u8
    ensures { result ≡ byte_of number }
{
    number.rem_euclid(256).unsigned_abs() as u8
}

fn keep_byte(shown: &mut Vec<u8>, byte: u8)
    requires room { 64 ≤ vec_capacity shown.old }
    ensures text { shown.new.items ≡ byte ∷ [] }
    ensures room { vec_capacity shown.old ≤ vec_capacity shown.new }
{
    shown.clear();
    let _ = shown.push(byte);
}

fn keep_decimal(shown: &mut Vec<u8>, number: i128)
    requires room { 64 ≤ vec_capacity shown.old }
    ensures text { shown.new.items ≡ signed_decimal number }
    ensures room { vec_capacity shown.old ≤ vec_capacity shown.new }
{
    let mut digits = Buffer::new();
    shown.clear();
    let _ = shown.extend_from_slice(digits.format(number).as_bytes());
}

// The digits from the last one on, each before those that stand.
#[tactic(auto, using(crate::proofs::Hexadecimal::starts))]
fn keep_hexadecimal(shown: &mut Vec<u8>, number: u64)
    requires room { 64 ≤ vec_capacity shown.old }
    ensures text { shown.new.items ≡ digits 16 false number }
    ensures room { vec_capacity shown.old ≤ vec_capacity shown.new }
{
    shown.clear();
    let mut left = number;
    let mut count = 0usize;
    while left >= 16 && count < 63 {
        put_first(shown, digit(left % 16));
        left /= 16;
        count += 1;
    }
    put_last_digit(shown, left);
}

// The first digit, of a number that has no other, or before 63 digits.
#[tactic(auto, using(crate::proofs::Hexadecimal::ends_short, crate::proofs::Hexadecimal::ends_full))]
fn put_last_digit(shown: &mut Vec<u8>, left: u64)
    requires few { length shown.old.items < 64 }
    requires last { 16 ≤ left → length shown.old.items ≡ 63 }
    requires room { 64 ≤ vec_capacity shown.old }
    ensures text { shown.new.items
        ≡ digits_onto (64 - length shown.old.items) 16 false left shown.old.items }
    ensures room { vec_capacity shown.old ≤ vec_capacity shown.new }
{
    put_first(shown, digit(left % 16));
}

fn digit(value: u64) -> u8
    requires { value < 16 }
    ensures { result ≡ digit_glyph false value }
{
    if value < 10 {
        48 + value as u8
    } else {
        87 + value as u8
    }
}

fn put_first(shown: &mut Vec<u8>, byte: u8)
    requires room { length shown.old.items < vec_capacity shown.old }
    ensures text { shown.new.items ≡ byte ∷ shown.old.items }
    ensures room { vec_capacity shown.old ≤ vec_capacity shown.new }
{
    let _ = shown.insert(0, byte);
}
