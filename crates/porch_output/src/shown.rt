//! The buffer in front of a sink.
ghost use Rattle.std.specs.Prelude.{◌≢◌, ◌<◌, length, true};

use crate::buffer::take_front;
use arrayvec::ArrayVec;
use porch_edge::{Failed, Sink, write_all};

/// A buffer of 4,096 bytes in front of a sink. After a call that failed it is spent.
#[derive(Drop)]
pub struct Shown {
    buffer: ArrayVec<u8, 4096>,
    // Whether a call has failed.
    spent: bool,
    ghost room: { spent ≢ true → length buffer.items < 4096 },
}

impl Shown {
    ghost use Rattle.std.specs.Prelude.{◌≡◌, [], ◌++◌, ◌<◌, ◌≤◌, ◌↔◌, length, take, drop, IsTrue, IfOk, OnOk, OnErr};
    ghost use Rattle.porch_edge.specs.Causes.{HasCause};
    ghost use Rattle.porch_edge.specs.Streams.{GrewByPrefix};
    ghost use Rattle.porch_output.specs.Shows.{waiting, IsSpent, PassesOn};

    /// An empty buffer.
    pub fn new() -> Shown
        ensures empty { waiting result ≡ [] }
        ensures usable { ¬ IsSpent result }
    {
        Shown {
            buffer: ArrayVec::new(),
            spent: false,
        }
    }

    /// Whether a call has failed. The buffer is of no use then.
    pub fn is_spent(&self) -> bool
        ensures { IsTrue result ↔ IsSpent self.now }
    {
        self.spent
    }

    /// Adds bytes. They are passed on as soon as the buffer is full. `Failed` only where the sink failed; it has gained
    /// a beginning of what was put then.
    pub fn put<O: Sink>(&mut self, out: &mut O, bytes: &[u8]) -> Result<(), Failed>
        requires { ¬ IsSpent self.old }
        ensures passed { OnOk result
            (PassesOn (O.held out.old) (O.held out.new)
            (waiting self.old ++ bytes.now) (waiting self.new)) }
        ensures failed { OnErr result
            (GrewByPrefix (O.held out.old) (O.held out.new) (waiting self.old ++ bytes.now)) }
        ensures usable { OnOk result (¬ IsSpent self.new) }
        ensures spent { OnErr result (IsSpent self.new) }
        ensures cause { HasCause (O.faults out.old) (O.faults out.new) result }
    {
        let mut taken = 0;
        while taken < bytes.len() {
            taken += self.put_some(out, &bytes[taken..])?;
        }
        Ok(())
    }

    // Adds as many bytes as fit, at least one, and passes the buffer on where it is full. It answers how many.
    fn put_some<O: Sink>(&mut self, out: &mut O, bytes: &[u8]) -> Result<usize, Failed>
        requires usable { ¬ IsSpent self.old }
        requires some { 0 < length bytes.now }
        ensures some { IfOk result (λ count. 0 < count) }
        ensures within { IfOk result (λ count. count ≤ length bytes.now) }
        ensures passed { IfOk result
            (λ count. PassesOn (O.held out.old) (O.held out.new)
            (waiting self.old ++ take count bytes.now) (waiting self.new)) }
        ensures failed { OnErr result
            (GrewByPrefix (O.held out.old) (O.held out.new) (waiting self.old ++ bytes.now)) }
        ensures usable { OnOk result (¬ IsSpent self.new) }
        ensures spent { OnErr result (IsSpent self.new) }
        ensures cause { HasCause (O.faults out.old) (O.faults out.new) result }
    {
        self.spent = true;
        let count = take_front(&mut self.buffer, bytes);
        if self.buffer.is_full() {
            self.flush_all(out)?;
        }
        self.spent = false;
        Ok(count)
    }

    // Passes on what waits.
    fn flush_all<O: Sink>(&mut self, out: &mut O) -> Result<(), Failed>
        ensures passed { OnOk result
            (PassesOn (O.held out.old) (O.held out.new) (waiting self.old) []) }
        ensures empty { OnOk result (waiting self.new ≡ []) }
        ensures failed { OnErr result
            (GrewByPrefix (O.held out.old) (O.held out.new) (waiting self.old)) }
        ensures usable { OnOk result (¬ IsSpent self.new) }
        ensures spent { OnErr result (IsSpent self.new) }
        ensures cause { HasCause (O.faults out.old) (O.faults out.new) result }
    {
        self.spent = true;
        write_all(out, self.buffer.as_slice())?;
        self.buffer.clear();
        self.spent = false;
        Ok(())
    }

    /// Passes on what waits. `Failed` only where the sink failed.
    pub fn flush<O: Sink>(&mut self, out: &mut O) -> Result<(), Failed>
        requires { ¬ IsSpent self.old }
        ensures passed { OnOk result
            (PassesOn (O.held out.old) (O.held out.new) (waiting self.old) []) }
        ensures empty { OnOk result (waiting self.new ≡ []) }
        ensures failed { OnErr result
            (GrewByPrefix (O.held out.old) (O.held out.new) (waiting self.old)) }
        ensures usable { OnOk result (¬ IsSpent self.new) }
        ensures spent { OnErr result (IsSpent self.new) }
        ensures cause { HasCause (O.faults out.old) (O.faults out.new) result }
    {
        self.flush_all(out)
    }
}
