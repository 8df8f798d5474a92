//! The parts of memory.

ghost use Rattle.std.specs.Prelude.{◌≡◌, ◌≤◌, ◌+◌, ◌-◌, ◌^◌, [], max};
ghost use Rattle.porch_metrics.specs.Extents.{round_up};
ghost use Rattle.porch_flat.specs.declared.whole.Flat.{Flat};
ghost use Rattle.porch_bytes.specs.Memory.{FIRST_GLOBAL, extent, free_after, global_types};
ghost use Rattle.porch_bytes.specs.State.{Setting};
ghost use Rattle.porch_bytes.specs.Column.{parts_with};

use crate::objects::round_up_to;
use porch_bytes::access::Parts;

/// The parts of memory before any function is called, where the globals are followed by a free place, and the stack
/// and the heap have so many bytes.
pub fn memory_map(free: u64, stack: u64, heap: u64) -> Parts
    requires globals { free ≤ 2 ^ 56 }
    requires stack { stack ≤ 2 ^ 24 }
    requires heap { heap ≤ 2 ^ 26 }
    ensures { (flat : Flat) (on : Setting)
        → free ≡ free_after (extent on.layout flat) FIRST_GLOBAL (global_types flat)
        → stack ≡ on.stack → heap ≡ on.heap → result ≡ parts_with flat on [] }
{
    let globals_end = end_of_globals(free);
    let stack_begin = round_up_to(globals_end + 1, 16);
    let heap_begin = round_up_to(stack_begin + stack + 16, 16);
    Parts {
        globals: 16,
        globals_end,
        stack: stack_begin,
        stack_end: stack_begin,
        heap: heap_begin,
        end: heap_begin + heap,
    }
}

// Where the globals end, where a free place follows them.
fn end_of_globals(free: u64) -> u64
    requires { free ≤ 2 ^ 56 }
    ensures value { result ≡ max 16 (free - 1) }
    ensures most { result ≤ 2 ^ 56 }
{
    free.saturating_sub(1).max(16)
}
