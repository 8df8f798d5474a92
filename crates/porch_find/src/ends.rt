//! Whether a row ends with a subobject, and which row ends at a byte.

ghost use Rattle.std.specs.Prelude.{◌↔◌, ◌<◌, length, IsTrue};
ghost use Rattle.porch_find.specs.Spots.{IsRowEnd};

use porch_metrics::Metrics;
use porch_types::subobjects_are_one;

/// Whether the subobject of type `pointee` at a leaf of an object is the last of its row, with an
/// end that isn't shared. Where no subobject begins, the answer is no.
pub fn ends_row(metrics: &Metrics, root: u32, count: u64, leaf: u64, pointee: u32) -> bool
    requires root { root < length metrics.now.types }
    requires pointee { pointee < length metrics.now.types }
    ensures { IsTrue result ↔ IsRowEnd metrics.now.types root count pointee leaf }
{
    let _layout = metrics.layout();
    subobjects_are_one();
    let types = metrics.types();
    match types.row_of(root, count, leaf, pointee) {
        None => false,
        Some(row) => {
            if (leaf - row.first) / types.leaves(pointee) + 1 == row.len {
                !types.shared_end(root, count, leaf, pointee)
            } else {
                false
            }
        }
    }
}
