//! The word of an address.

ghost use Rattle.std.specs.Prelude.{◌≡◌, ◌↔◌, ◌<◌, ◌≤◌, ◌+◌, ◌*◌, ◌^◌, ℕ, length};
ghost use Rattle.porch_types.specs.Rows.{IsSubobject};
ghost use Rattle.porch_metrics.specs.Extents.{ucf_layout};
ghost use Rattle.porch_points.specs.Plans.{IsPlan, LieApart, end_of};
ghost use Rattle.porch_points.specs.Words.{IsWordOf, word_of};

use crate::named::named_by_address;
use crate::plan::{DEAD, Plan};
use porch_find::{Root, Spot, subobjects_end_inside};
use porch_metrics::{Metrics, ucf_is_a_layout};
use porch_types::rows_lie_inside;

/// The word of a pointer to type `pointee`: 0 for the address 0, twice the place behind the first
/// byte of the subobject that the address names, one more for an end that isn't shared, and `DEAD`
/// for any other address. It takes no memory.
pub fn to_word(plan: &Plan, metrics: &Metrics, address: u64, pointee: u32) -> u64
    requires pointee { pointee < length metrics.now.types }
    requires plan { IsPlan metrics.now.layout metrics.now.types plan.now.addresses.items
        plan.now.places.items }
    requires rising { LieApart metrics.now.layout metrics.now.types plan.now.addresses.items }
    ensures { (word : ℕ) → (result ≡ word) ↔ IsWordOf metrics.now.layout metrics.now.types
        plan.now.addresses.items plan.now.places.items pointee address word }
{
    if address == 0 {
        return 0;
    }
    match named_by_address(&plan.addresses, metrics, address, pointee) {
        None => DEAD,
        Some(named) => {
            let copy = plan.places.get(named.number);
            word_at(metrics, copy, named.spot, pointee)
        }
    }
}

/// The word of a spot of the object at this place in the data.
fn word_at(metrics: &Metrics, object: Root, spot: Spot, pointee: u32) -> u64
    requires known { object.ty < length metrics.now.types }
    requires few { object.count < 2 ^ 32 }
    requires ends { end_of ucf_layout metrics.now.types object < 2 ^ 62 }
    requires sub { IsSubobject metrics.now.types object.ty object.count spot.leaf pointee }
    ensures { result ≡ word_of metrics.now.types object spot }
{
    let _layout = metrics.layout();
    let _leaves = metrics.types().leaves(object.ty);
    ucf_is_a_layout();
    rows_lie_inside();
    subobjects_end_inside();
    let place = object.at + metrics.ucf_place(object.ty, spot.leaf);
    let word = 2 * (place + 1);
    if spot.past { word + 1 } else { word }
}
