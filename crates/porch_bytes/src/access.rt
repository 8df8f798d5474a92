//! Which bytes of memory may be read and written.

ghost use Rattle.std.specs.Prelude.{◌≡◌, ◌≤◌, ◌<◌, ◌+◌, ◌^◌};
ghost use Rattle.porch_bytes.specs.Access.{part_end, is_place, is_address, is_between};

/// The parts of memory that a program may use: its globals, the used part of its stack, and its heap, which
/// ends where memory ends. All are addresses.
#[derive(Clone, Copy, Debug, PartialEq, Eq)]
pub struct Parts {
    pub globals: u64,
    pub globals_end: u64,
    pub stack: u64,
    pub stack_end: u64,
    pub heap: u64,
    pub end: u64,
}

fn is_in(from: u64, to: u64, at: u64) -> bool
    ensures { result ≡ is_between from to at }
{
    from <= at && at < to
}

/// The end of the part of memory that an address lies in; of an address in none, the address itself.
pub fn end_of_part(parts: &Parts, at: u64) -> u64
    ensures { result ≡ part_end parts.now at }
{
    if is_in(parts.globals, parts.globals_end, at) {
        parts.globals_end
    } else if is_in(parts.stack, parts.stack_end, at) {
        parts.stack_end
    } else if is_in(parts.heap, parts.end, at) {
        parts.end
    } else {
        at
    }
}

/// Whether so many bytes may be read and written at an address, which has to be aligned.
pub fn can_reach(parts: &Parts, size: u64, align: u64, at: u64) -> bool
    requires some { 0 < align }
    ensures { result ≡ is_place parts.now size align at }
{
    let end = end_of_part(parts, at);
    at <= end && size <= end - at && at % align == 0
}

/// Whether a sum is an address of memory, or its end.
pub fn is_in_memory(parts: &Parts, sum: i128) -> bool
    ensures { result ≡ is_address parts.now sum }
{
    0 <= sum && sum <= i128::from(parts.end)
}
