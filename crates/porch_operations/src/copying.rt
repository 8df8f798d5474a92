//! Objects that are copied leaf by leaf.

ghost use Rattle.std.specs.Prelude.{◌≡◌, ◌≤◌, ◌<◌, ◌+◌, ◌^◌, length};
ghost use Rattle.porch_types.specs.Leaves.{leaves_of};
ghost use Rattle.porch_types.specs.LeafTypes.{leaf_type};
ghost use Rattle.porch_metrics.specs.Extents.{extent_of};
ghost use Rattle.porch_metrics.specs.Places.{place_of};
ghost use Rattle.porch_operations.specs.Operations.{with_leaf_of, with_copy};

use porch_bytes::bytes::copy_bytes;
use porch_metrics::{Metrics, elements_are_aligned, leaves_lie_apart};

/// Copies the leaves of an object of a type to another one, one after the other. The bytes between leaves stay. It takes
/// time in the number of leaves.
pub(crate) fn copy_object(metrics: &Metrics, ty: u32, to: usize, from: usize, memory: &mut [u8])
    requires known { ty < length metrics.now.types }
    requires to { to + (extent_of metrics.now.layout metrics.now.types ty).size
        ≤ length memory.old }
    requires from { from + (extent_of metrics.now.layout metrics.now.types ty).size
        ≤ length memory.old }
    ensures memory { memory.new ≡ with_copy metrics.now ty to from memory.old }
    ensures length { length memory.new ≡ length memory.old }
{
    let count = metrics.types().leaves(ty);
    for leaf in 0..count {
        copy_leaf(metrics, ty, to, from, leaf, memory);
    }
}

// Copies one leaf.
fn copy_leaf(metrics: &Metrics, ty: u32, to: usize, from: usize, leaf: u64, memory: &mut [u8])
    requires known { ty < length metrics.now.types }
    requires leaf { leaf < leaves_of metrics.now.types ty }
    requires few { leaf ≤ 2 ^ 52 }
    requires to { to + (extent_of metrics.now.layout metrics.now.types ty).size
        ≤ length memory.old }
    requires from { from + (extent_of metrics.now.layout metrics.now.types ty).size
        ≤ length memory.old }
    ensures memory { memory.new ≡ with_leaf_of metrics.now ty to from leaf memory.old }
    ensures length { length memory.new ≡ length memory.old }
{
    leaf_lies_inside(metrics, ty, leaf);
    let place = metrics.place(ty, leaf) as usize;
    let size = metrics.size(metrics.types().leaf_type(ty, leaf)) as usize;
    copy_bytes(memory, from + place, to + place, size);
}

// A leaf ends where its type does, or before.
fn leaf_lies_inside(metrics: &Metrics, ty: u32, leaf: u64)
    requires known { ty < length metrics.now.types }
    requires leaf { leaf < leaves_of metrics.now.types ty }
    ensures { place_of metrics.now.layout metrics.now.types ty leaf
        + (extent_of metrics.now.layout metrics.now.types
        (leaf_type metrics.now.types ty leaf)).size
        ≤ (extent_of metrics.now.layout metrics.now.types ty).size }
{
    let _ = metrics.layout();
    leaves_lie_apart();
    elements_are_aligned();
}
