//! The ints of main's frame: reading, writing and reckoning.

ghost use Rattle.std.specs.Prelude.{◌≡◌, ◌≤◌, ◌+◌, ◌*◌, ◌+ℤ◌, ◌-ℤ◌, ◌*ℤ◌, pos, length};
ghost use Rattle.std.specs.Ordering.{int_eq};
ghost use Rattle.porch_values.specs.Integers.{as_int_of};
ghost use Rattle.porch_objects.specs.Meaning.{truth, byte_of};
ghost use Rattle.porch_machine.specs.inside.Resolved.{int_in, with_int, value_of, Lies, LiesSource};

use crate::code::Source;
use porch_values::Act;

// The int of a variable.
pub fn load(memory: &[u8], v: u32) -> i32
    requires { Lies (length memory.now) v }
    ensures { result ≡ int_in memory.now v }
{
    let at = 32 + 8 * v as usize;
    let word = u32::from_le_bytes([memory[at], memory[at + 1], memory[at + 2], memory[at + 3]]);
    word.cast_signed()
}

// Gives a variable an int.
pub fn store(memory: &mut [u8], v: u32, value: i32)
    requires { Lies (length memory.old) v }
    ensures { memory.new ≡ with_int memory.old v value }
{
    let at = 32 + 8 * v as usize;
    let bytes = value.to_le_bytes();
    memory[at..at + 4].copy_from_slice(&bytes);
}

// What a command reads.
pub fn read(memory: &[u8], source: Source) -> i32
    requires { LiesSource (length memory.now) source }
    ensures { result ≡ value_of source memory.now }
{
    match source {
        Source::Var(v) => load(memory, v),
        Source::Constant(z) => z,
    }
}

pub fn sum(a: i32, b: i32) -> Result<i32, Act>
    ensures { result ≡ as_int_of (a +ℤ b) }
{
    match a.checked_add(b) {
        Some(z) => Ok(z),
        None => Err(Act::Overflow),
    }
}

pub fn difference(a: i32, b: i32) -> Result<i32, Act>
    ensures { result ≡ as_int_of (a -ℤ b) }
{
    match a.checked_sub(b) {
        Some(z) => Ok(z),
        None => Err(Act::Overflow),
    }
}

pub fn product(a: i32, b: i32) -> Result<i32, Act>
    ensures { result ≡ as_int_of (a *ℤ b) }
{
    match a.checked_mul(b) {
        Some(z) => Ok(z),
        None => Err(Act::Overflow),
    }
}

// 1 where the first is below the second, else 0.
pub fn below(a: i32, b: i32) -> i32
    ensures { result ≡ truth a b }
{
    if a < b { 1 } else { 0 }
}

pub fn is_zero(a: i32) -> bool
    ensures { result ≡ int_eq a (pos 0) }
{
    a == 0
}

pub fn low_byte(a: i32) -> u8
    ensures { result ≡ byte_of a }
{
    a.to_le_bytes()[0]
}
