//! Bytes to read.

ghost use Rattle.std.specs.Prelude.{ℕ, List, ◌≤◌, length, IfOk};
ghost use Rattle.std.specs.declared.option.Option.{Option};
ghost use Rattle.porch_edge.specs.Causes.{HasCause};
ghost use Rattle.porch_edge.specs.Streams.{Takes};

use crate::failed::Failed;

/// A stream of bytes that are read once.
pub trait Source {
    /// The bytes that are left, where the source tells them.
    ghost left: { Self → Option (List ℕ) };

    /// How often a read has failed. It never falls.
    ghost faults: { Self → ℕ };

    /// Puts the first bytes of what is left into `buf`, from its beginning, and answers how many. 0 for a buffer that
    /// isn't empty means the end. After `Failed` nothing was taken.
    fn read(&mut self, buf: &mut [u8]) -> Result<usize, Failed>
        ensures bound { IfOk result (λ n. n ≤ length buf.new) }
        ensures taken { Takes (left self.old) (left self.new) result buf.new }
        ensures cause { HasCause (faults self.old) (faults self.new) result };
}
