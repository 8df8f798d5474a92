//! The spot that a byte names.

ghost use Rattle.std.specs.Prelude.{◌≡◌, ◌↔◌, ◌<◌, ◌*◌, ℕ, length, Some, IfSome, IfNone};
ghost use Rattle.porch_types.specs.Leaves.{leaves_of};
ghost use Rattle.porch_metrics.specs.Extents.{ucf_layout};
ghost use Rattle.porch_find.specs.declared.spot.Spot.{Spot};
ghost use Rattle.porch_find.specs.Spots.{BeginsAt, EndsAt, IsSpot};
ghost use Rattle.porch_find.specs.inside.Forms.{layout_in};

use crate::ends::ends_row;
use crate::forms::{Form, forms_are_measured, size_in};
use crate::leaf::leaf_at;
use crate::spot::Spot;
use porch_metrics::Metrics;

/// What a byte of an object names, counted from the object's beginning: the subobject of type
/// `pointee` that begins there, or the last one of a row that ends there with an end that isn't
/// shared, or nothing. An object is `count` elements of type `root`.
pub fn find(metrics: &Metrics, root: u32, count: u64, byte: u64, pointee: u32) -> Option<Spot>
    requires root { root < length metrics.now.types }
    requires pointee { pointee < length metrics.now.types }
    ensures spot { (spot : Spot) → (result ≡ Some spot)
        ↔ IsSpot metrics.now.layout metrics.now.types root count byte pointee spot }
    ensures within { IfSome result (λ spot. spot.leaf < count * leaves_of metrics.now.types root) }
{
    find_in(metrics, Form::Native, root, count, byte, pointee)
}

/// The same of a byte of an object that is packed as in a UCF file.
pub fn find_ucf(metrics: &Metrics, root: u32, count: u64, byte: u64, pointee: u32) -> Option<Spot>
    requires root { root < length metrics.now.types }
    requires pointee { pointee < length metrics.now.types }
    ensures spot { (spot : Spot) → (result ≡ Some spot)
        ↔ IsSpot ucf_layout metrics.now.types root count byte pointee spot }
    ensures within { IfSome result (λ spot. spot.leaf < count * leaves_of metrics.now.types root) }
{
    find_in(metrics, Form::Packed, root, count, byte, pointee)
}

fn find_in(
    metrics: &Metrics,
    form: Form,
    root: u32,
    count: u64,
    byte: u64,
    pointee: u32,
) -> Option<Spot>
    requires root { root < length metrics.now.types }
    requires pointee { pointee < length metrics.now.types }
    ensures spot { (spot : Spot) → (result ≡ Some spot)
        ↔ IsSpot (layout_in form metrics.now.layout) metrics.now.types root count byte pointee
        spot }
    ensures within { IfSome result (λ spot. spot.leaf < count * leaves_of metrics.now.types root) }
{
    forms_are_measured(metrics, form);
    match begin_at(metrics, form, root, count, byte, pointee) {
        Some(leaf) => Some(Spot { leaf, past: false }),
        None => match end_at(metrics, form, root, count, byte, pointee) {
            Some(leaf) => Some(Spot { leaf, past: true }),
            None => None,
        },
    }
}

/// The leaf of the subobject that begins at a byte.
fn begin_at(
    metrics: &Metrics,
    form: Form,
    root: u32,
    count: u64,
    byte: u64,
    pointee: u32,
) -> Option<u64>
    requires root { root < length metrics.now.types }
    requires pointee { pointee < length metrics.now.types }
    ensures some { IfSome result (λ leaf.
        BeginsAt (layout_in form metrics.now.layout) metrics.now.types root count byte pointee
        leaf) }
    ensures within { IfSome result (λ leaf. leaf < count * leaves_of metrics.now.types root) }
    ensures none { IfNone result ((leaf : ℕ) →
        BeginsAt (layout_in form metrics.now.layout) metrics.now.types root count byte pointee leaf
        → ⊥) }
{
    forms_are_measured(metrics, form);
    match leaf_at(metrics, form, root, count, byte) {
        None => None,
        Some(leaf) => match metrics.types().row_of(root, count, leaf, pointee) {
            Some(_) => Some(leaf),
            None => None,
        },
    }
}

/// The leaf of the last subobject of the row that ends at a byte.
fn end_at(
    metrics: &Metrics,
    form: Form,
    root: u32,
    count: u64,
    byte: u64,
    pointee: u32,
) -> Option<u64>
    requires root { root < length metrics.now.types }
    requires pointee { pointee < length metrics.now.types }
    ensures some { IfSome result (λ leaf.
        EndsAt (layout_in form metrics.now.layout) metrics.now.types root count byte pointee leaf) }
    ensures within { IfSome result (λ leaf. leaf < count * leaves_of metrics.now.types root) }
    ensures none { IfNone result ((leaf : ℕ) →
        EndsAt (layout_in form metrics.now.layout) metrics.now.types root count byte pointee leaf
        → ⊥) }
{
    forms_are_measured(metrics, form);
    let size = size_in(metrics, form, pointee);
    if byte < size {
        return None;
    }
    match leaf_at(metrics, form, root, count, byte - size) {
        None => None,
        Some(leaf) => {
            if ends_row(metrics, root, count, leaf, pointee) {
                Some(leaf)
            } else {
                None
            }
        }
    }
}
