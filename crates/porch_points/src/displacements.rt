//! Whether a word names something.

ghost use Rattle.std.specs.Prelude.{◌≡◌, ◌↔◌, ◌<◌, ◌≤◌, length, IsTrue};
ghost use Rattle.porch_metrics.specs.Extents.{ucf_layout};
ghost use Rattle.porch_points.specs.Plans.{AreKnown, FollowOn};
ghost use Rattle.porch_points.specs.Displacements.{IsDisplacement, NamesSpotOf};

use crate::addresses::is_odd;
use crate::named::named_by_place;
use crate::plan::DEAD;
use porch_find::{Roots, ends_row};
use porch_metrics::Metrics;

/// Whether a word may stand for a pointer to type `pointee` in a checkpoint with these objects: 0,
/// `DEAD`, or the word of a subobject or of an unshared end. It takes no memory.
pub fn is_displacement(places: &Roots, metrics: &Metrics, word: u64, pointee: u32) -> bool
    requires pointee { pointee < length metrics.now.types }
    requires known { AreKnown metrics.now.types places.now.items }
    requires follow { FollowOn ucf_layout metrics.now.types places.now.items }
    ensures { IsTrue result ↔ IsDisplacement metrics.now.types places.now.items pointee word }
{
    if word == 0 {
        return true;
    }
    if word == DEAD {
        return true;
    }
    if word == 1 {
        return false;
    }
    names_spot(places, metrics, word, pointee)
}

fn names_spot(places: &Roots, metrics: &Metrics, word: u64, pointee: u32) -> bool
    requires pointee { pointee < length metrics.now.types }
    requires known { AreKnown metrics.now.types places.now.items }
    requires follow { FollowOn ucf_layout metrics.now.types places.now.items }
    requires named { 2 ≤ word }
    ensures { IsTrue result ↔ NamesSpotOf metrics.now.types places.now.items pointee word }
{
    let past = is_odd(word);
    match named_by_place(places, metrics, word / 2 - 1, pointee) {
        None => false,
        Some(begun) => {
            let object = places.get(begun.number);
            if past {
                ends_row(
                    metrics,
                    object.ty,
                    u64::from(object.count),
                    begun.leaf,
                    pointee,
                )
            } else {
                true
            }
        }
    }
}
