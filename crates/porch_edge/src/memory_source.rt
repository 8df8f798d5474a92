//! A source in memory.

ghost use Rattle.std.specs.Prelude.{◌≡◌, ◌≤◌, min, length, take, IfOk, Some};
ghost use Rattle.std.specs.List.{list_any};
ghost use Rattle.porch_edge.specs.Causes.{HasCause};
ghost use Rattle.porch_edge.specs.Streams.{Takes};
ghost use Rattle.porch_edge.specs.MemoryStreams.{Feed, ReadsFeed, is_listed};

use crate::failed::Failed;
use crate::source::Source;
use std::marker::Model;

/// Bytes in memory. Of its calls, numbered from 1, the ones that were named fail.
#[derive(Drop)]
pub struct MemSource {
    bytes: Vec<u8>,
    taken: usize,
    fails: Vec<u64>,
    calls: u64,
    faults: u64,
}

impl Model for MemSource {
    ghost use Rattle.std.specs.Prelude.{drop, ◌≤◌, length};
    ghost use Rattle.porch_edge.specs.MemoryStreams.{Feed};

    ghost Value = { Feed };

    ghost view = { λ s. record { left = drop s.taken s.bytes.items; fails = s.fails.items; calls = s.calls; faults = s.faults } };

    ghost invariant = { λ s. s.taken ≤ length s.bytes.items };
}

impl MemSource {
    /// A source with these bytes whose calls with the numbers of `fails` fail.
    pub fn new(bytes: Vec<u8>, fails: Vec<u64>) -> MemSource
        ensures { result
            ≡ record { left = bytes.items; fails = fails.items; calls = 0; faults = 0 } }
    {
        MemSource {
            bytes,
            taken: 0,
            fails,
            calls: 0,
            faults: 0,
        }
    }
}

/// Whether a call's number is among those that fail.
pub(crate) fn fails_at(fails: &[u64], call: u64) -> bool
    ensures { result ≡ is_listed call fails.now }
{
    fails.contains(&call)
}

/// Copies as many bytes as there are and as fit, and answers how many.
fn copy_front(from: &[u8], into: &mut [u8]) -> usize
    ensures count { result ≡ min (length into.old) (length from.now) }
    ensures copied { take result into.new ≡ take result from.now }
{
    let count = from.len().min(into.len());
    into[..count].copy_from_slice(&from[..count]);
    count
}

impl Source for MemSource {
    ghost left = { λ s. Some s.left };

    ghost faults = { λ s. s.faults };

    fn read(&mut self, buf: &mut [u8]) -> Result<usize, Failed>
        ensures bound { IfOk result (λ n. n ≤ length buf.new) }
        ensures taken { Takes (Some self.old.left) (Some self.new.left) result buf.new }
        ensures cause { HasCause self.old.faults self.new.faults result }
        ensures exact { ReadsFeed self.old self.new result buf.new }
    {
        self.calls = self.calls.saturating_add(1);
        if fails_at(&self.fails, self.calls) {
            self.faults = self.faults.saturating_add(1);
            return Err(Failed);
        }
        let count = copy_front(&self.bytes[self.taken..], buf);
        self.taken += count;
        Ok(count)
    }
}
