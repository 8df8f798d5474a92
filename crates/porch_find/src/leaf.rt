//! Which leaf begins at a byte.

ghost use Rattle.std.specs.Prelude.{◌≡◌, ◌≢◌, ◌<◌, ◌≤◌, ◌*◌, ℕ, length, slice_get, Some, IfSome, IfNone};
ghost use Rattle.porch_types.specs.declared.shapes.Ty.{Ty};
ghost use Rattle.porch_types.specs.Leaves.{leaves_of};
ghost use Rattle.porch_metrics.specs.Places.{place_of};
ghost use Rattle.porch_find.specs.inside.Forms.{layout_in};

use crate::forms::{Form, forms_are_measured, place_in, size_in};
use porch_metrics::Metrics;
use porch_types::{Ty, Types};

/// The leaf of an object that begins at a byte: the element is found by division.
pub(crate) fn leaf_at(
    metrics: &Metrics,
    form: Form,
    root: u32,
    count: u64,
    byte: u64,
) -> Option<u64>
    requires { root < length metrics.now.types }
    ensures some { IfSome result (λ leaf. leaf < count * leaves_of metrics.now.types root) }
    ensures place { IfSome result (λ leaf.
        place_of (layout_in form metrics.now.layout) metrics.now.types root leaf ≡ byte) }
    ensures none { IfNone result ((leaf : ℕ) → leaf < count * leaves_of metrics.now.types root
        → place_of (layout_in form metrics.now.layout) metrics.now.types root leaf ≢ byte) }
{
    forms_are_measured(metrics, form);
    let size = size_in(metrics, form, root);
    let element = byte / size;
    if element >= count {
        return None;
    }
    match leaf_within(metrics, form, root, byte % size) {
        Some(leaf) => Some(element * metrics.types().leaves(root) + leaf),
        None => None,
    }
}

/// The leaf of one element that begins at a byte: the elements of arrays are found by division.
fn leaf_within(metrics: &Metrics, form: Form, ty: u32, byte: u64) -> Option<u64>
    requires { ty < length metrics.now.types }
    ensures some { IfSome result (λ leaf. leaf < leaves_of metrics.now.types ty) }
    ensures place { IfSome result (λ leaf.
        place_of (layout_in form metrics.now.layout) metrics.now.types ty leaf ≡ byte) }
    ensures none { IfNone result ((leaf : ℕ) → leaf < leaves_of metrics.now.types ty
        → place_of (layout_in form metrics.now.layout) metrics.now.types ty leaf ≢ byte) }
{
    forms_are_measured(metrics, form);
    let types = metrics.types();
    // a type has few leaves, so that no sum below passes 2^64
    let most = types.leaves(ty);
    let mut whole = ty;
    let mut before = 0;
    let mut inner = byte;
    'arrays: while let Some((of, count)) = array_of(types, whole) {
        let size = size_in(metrics, form, of);
        let index = inner / size;
        if index >= count {
            return None;
        }
        before += index * types.leaves(of);
        inner %= size;
        whole = of;
    }
    match leaf_among(metrics, form, whole, inner) {
        Some(leaf) => Some(before + leaf),
        None => None,
    }
}

/// The element type and the number of elements, where the type is an array.
fn array_of(types: &Types, ty: u32) -> Option<(u32, u64)>
    requires { ty < length types.now }
    ensures { IfSome result (λ array. slice_get types.now ty ≡ Some (Ty.Array array.0 array.1)) }
{
    match types.get(ty) {
        Ty::Array { of, count } => Some((*of, u64::from(*count))),
        Ty::Whole { kind: _ } => None,
        Ty::Pointer { to: _ } => None,
        Ty::Struct { members: _ } => None,
    }
}

/// The leaf of one value that begins at a byte, by halving.
fn leaf_among(metrics: &Metrics, form: Form, ty: u32, byte: u64) -> Option<u64>
    requires { ty < length metrics.now.types }
    ensures some { IfSome result (λ leaf. leaf < leaves_of metrics.now.types ty) }
    ensures place { IfSome result (λ leaf.
        place_of (layout_in form metrics.now.layout) metrics.now.types ty leaf ≡ byte) }
    ensures none { IfNone result ((leaf : ℕ) → leaf < leaves_of metrics.now.types ty
        → place_of (layout_in form metrics.now.layout) metrics.now.types ty leaf ≢ byte) }
{
    forms_are_measured(metrics, form);
    let mut low = 0;
    let mut high = metrics.types().leaves(ty);
    'halves: while high - low > 1 {
        let middle = low + (high - low) / 2;
        if place_in(metrics, form, ty, middle) <= byte {
            low = middle;
        } else {
            high = middle;
        }
    }
    if place_in(metrics, form, ty, low) == byte {
        Some(low)
    } else {
        None
    }
}
