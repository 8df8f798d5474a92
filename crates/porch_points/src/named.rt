//! The object and the spot that an address or a place in the data names.

ghost use Rattle.std.specs.Prelude.{◌≡◌, ◌↔◌, ◌<◌, ◌≤◌, ◌+◌, ℕ, length, slice_get, Some, false};
ghost use Rattle.porch_metrics.specs.Extents.{ucf_layout};
ghost use Rattle.porch_find.specs.declared.spot.Spot.{Spot};
ghost use Rattle.porch_points.specs.Plans.{AreKnown, LieApart, FollowOn};
ghost use Rattle.porch_points.specs.Words.{NamesSpot};

use porch_find::{Roots, Spot, find, find_ucf, subobjects_end_inside};
use porch_metrics::{Metrics, extents_are_bounded, ucf_is_a_layout};

/// A spot of the object of a number.
#[derive(Clone, Copy)]
pub(crate) struct Named {
    pub(crate) number: usize,
    pub(crate) spot: Spot,
}

/// What an address names. Objects that lie apart have no end in common with a beginning.
pub(crate) fn named_by_address(
    addresses: &Roots,
    metrics: &Metrics,
    address: u64,
    pointee: u32,
) -> Option<Named>
    requires pointee { pointee < length metrics.now.types }
    requires known { AreKnown metrics.now.types addresses.now.items }
    requires apart { LieApart metrics.now.layout metrics.now.types addresses.now.items }
    ensures { (number : ℕ) (spot : Spot)
        → (result ≡ Some (record { number = number; spot = spot }))
        ↔ NamesSpot metrics.now.layout metrics.now.types addresses.now.items pointee address
        number spot }
{
    let _layout = metrics.layout();
    subobjects_end_inside();
    match addresses.root_at(address) {
        None => None,
        Some(number) => {
            let object = addresses.get(number);
            let count = u64::from(object.count);
            match find(metrics, object.ty, count, address - object.at, pointee) {
                None => None,
                Some(spot) => Some(Named { number, spot }),
            }
        }
    }
}

/// The subobject at a leaf of the object of a number.
#[derive(Clone, Copy)]
pub(crate) struct Begun {
    pub(crate) number: usize,
    pub(crate) leaf: u64,
}

/// The subobject that begins at a place of the data. Objects may touch there, so an end is no
/// answer.
pub(crate) fn named_by_place(
    places: &Roots,
    metrics: &Metrics,
    place: u64,
    pointee: u32,
) -> Option<Begun>
    requires pointee { pointee < length metrics.now.types }
    requires known { AreKnown metrics.now.types places.now.items }
    requires follow { FollowOn ucf_layout metrics.now.types places.now.items }
    ensures { (number leaf : ℕ) → (result ≡ Some (record { number = number; leaf = leaf }))
        ↔ NamesSpot ucf_layout metrics.now.types places.now.items pointee place number
        (record { leaf = leaf; past = false }) }
{
    let _layout = metrics.layout();
    ucf_is_a_layout();
    extents_are_bounded();
    subobjects_end_inside();
    match places.root_at(place) {
        None => None,
        Some(number) => {
            let object = places.get(number);
            let count = u64::from(object.count);
            match find_ucf(metrics, object.ty, count, place - object.at, pointee) {
                None => None,
                Some(spot) => {
                    if spot.past {
                        None
                    } else {
                        Some(Begun {
                            number,
                            leaf: spot.leaf,
                        })
                    }
                }
            }
        }
    }
}
