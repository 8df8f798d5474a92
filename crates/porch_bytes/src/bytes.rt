//! Texts in memory, and bytes that are cleared or copied.

ghost use Rattle.std.specs.Prelude.{◌≡◌, ◌≤◌, ◌<◌, ◌+◌, ◌-◌, ◌==◌, length, position, replicate, IfSome};
ghost use Rattle.std.specs.Option.{option_map};
ghost use Rattle.porch_bytes.specs.Access.{text_in};
ghost use Rattle.porch_bytes.specs.Leaf.{part, spliced};

/// The length of the text from an address on, which has to end with a byte 0 before an end.
pub fn text_length(memory: &[u8], at: usize, end: usize) -> Option<usize>
    requires order { at ≤ end }
    requires within { end ≤ length memory.now }
    ensures text { option_map (λ n. part memory.now at n) result
        ≡ text_in (part memory.now at (end - at)) }
    ensures within { IfSome result (λ n. at + n < end) }
{
    end_of_text(&memory[at..end])
}

// Where the first byte 0 stands.
fn end_of_text(bytes: &[u8]) -> Option<usize>
    ensures { result ≡ position (λ b. b == 0) bytes.now }
{
    bytes.iter().position(|b| *b == 0)
}

/// Makes so many bytes 0.
#[tactic(auto, using(crate::proofs::Parts::length_cleared))]
pub fn clear(memory: &mut [u8], at: usize, size: usize)
    requires { at + size ≤ length memory.old }
    ensures bytes { memory.new ≡ spliced memory.old at (replicate size 0) }
    ensures length { length memory.new ≡ length memory.old }
{
    memory[at..at + size].fill(0);
}

/// Copies so many bytes from one address to another; the two may overlap.
#[tactic(auto, using(crate::proofs::Parts::length_copied))]
pub fn copy_bytes(memory: &mut [u8], from: usize, to: usize, size: usize)
    requires from { from + size ≤ length memory.old }
    requires to { to + size ≤ length memory.old }
    ensures bytes { memory.new ≡ spliced memory.old to (part memory.old from size) }
    ensures length { length memory.new ≡ length memory.old }
{
    memory.copy_within(from..from + size, to);
}
