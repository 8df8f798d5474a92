//! A sink in memory.

ghost use Rattle.std.specs.Prelude.{◌≡◌, ◌≤◌, ◌<◌, [], length, IfOk, Some};
ghost use Rattle.porch_edge.specs.Causes.{HasCause};
ghost use Rattle.porch_edge.specs.Streams.{Gains};
ghost use Rattle.porch_edge.specs.MemoryStreams.{Store, WritesStore};

use crate::failed::Failed;
use crate::memory_source::fails_at;
use crate::sink::Sink;
use std::alloc::Global;
use std::marker::Model;

/// Bytes that grow in memory. Of its calls, numbered from 1, the ones that were named fail, and so does one whose growth
/// is refused.
#[derive(Drop)]
pub struct MemSink {
    bytes: Vec<u8>,
    fails: Vec<u64>,
    calls: u64,
    faults: u64,
}

impl Model for MemSink {
    ghost use Rattle.porch_edge.specs.MemoryStreams.{Store};

    ghost Value = { Store };

    ghost view = { λ s. record { held = s.bytes.items; fails = s.fails.items; calls = s.calls; faults = s.faults } };
}

impl MemSink {
    /// An empty sink whose calls with the numbers of `fails` fail. It takes no memory before the first write.
    pub fn new(alloc: Global, fails: Vec<u64>) -> MemSink
        ensures { result ≡ record { held = []; fails = fails.items; calls = 0; faults = 0 } }
    {
        MemSink {
            bytes: Vec::new(alloc),
            fails,
            calls: 0,
            faults: 0,
        }
    }

    /// The bytes that were written so far.
    pub fn held(&self) -> &[u8]
        ensures { result.now ≡ self.now.held }
    {
        self.bytes.as_slice()
    }
}

impl Sink for MemSink {
    ghost held = { λ s. Some s.held };

    ghost faults = { λ s. s.faults };

    fn write(&mut self, bytes: &[u8]) -> Result<usize, Failed>
        ensures bound { IfOk result (λ n. n ≤ length bytes.now) }
        ensures some { IfOk result (λ n. 0 < length bytes.now → 0 < n) }
        ensures gained { Gains (Some self.old.held) (Some self.new.held) result bytes.now }
        ensures cause { HasCause self.old.faults self.new.faults result }
        ensures exact { WritesStore self.old self.new result bytes.now }
    {
        self.calls = self.calls.saturating_add(1);
        let fails = fails_at(&self.fails, self.calls);
        if fails || self.bytes.extend_from_slice(bytes).is_err() {
            self.faults = self.faults.saturating_add(1);
            return Err(Failed);
        }
        Ok(bytes.len())
    }
}
