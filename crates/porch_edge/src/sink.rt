//! Places to write to.

ghost use Rattle.std.specs.Prelude.{ℕ, List, ◌≤◌, ◌<◌, length, IfOk};
ghost use Rattle.std.specs.declared.option.Option.{Option};
ghost use Rattle.porch_edge.specs.Causes.{HasCause};
ghost use Rattle.porch_edge.specs.Streams.{Gains, GainsAll};

use crate::failed::Failed;

/// A stream that bytes are added to.
pub trait Sink {
    /// The bytes that were written so far, where the sink tells them.
    ghost held: { Self → Option (List ℕ) };

    /// How often a write has failed. It never falls.
    ghost faults: { Self → ℕ };

    /// Adds the first bytes of a piece, and answers how many: at least one where the piece isn't empty. After `Failed`
    /// what is held is unchanged.
    fn write(&mut self, bytes: &[u8]) -> Result<usize, Failed>
        ensures bound { IfOk result (λ n. n ≤ length bytes.now) }
        ensures some { IfOk result (λ n. 0 < length bytes.now → 0 < n) }
        ensures gained { Gains (held self.old) (held self.new) result bytes.now }
        ensures cause { HasCause (faults self.old) (faults self.new) result };
}

/// Adds all of a piece, in as many writes as the sink wants. After `Failed` a beginning of it was added.
pub fn write_all<O: Sink>(out: &mut O, bytes: &[u8]) -> Result<(), Failed>
    ensures gained { GainsAll (O.held out.old) (O.held out.new) result bytes.now }
    ensures cause { HasCause (O.faults out.old) (O.faults out.new) result }
{
    let mut written = 0;
    while written < bytes.len() {
        match out.write(&bytes[written..]) {
            Ok(count) => written += count,
            Err(failed) => return Err(failed),
        }
    }
    Ok(())
}
