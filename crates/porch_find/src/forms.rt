//! Sizes and places in the two forms of an object: as it lies in memory, and packed as in a UCF
//! file.

ghost use Rattle.std.specs.Prelude.{◌≡◌, ◌<◌, ◌≤◌, ◌*◌, ◌^◌, List, length};
ghost use Rattle.porch_types.specs.declared.shapes.Ty.{Ty};
ghost use Rattle.porch_types.specs.Leaves.{IsTypes};
ghost use Rattle.porch_layout.specs.declared.layout.Layout.{Layout};
ghost use Rattle.porch_layout.specs.Layouts.{IsLayout};
ghost use Rattle.porch_metrics.specs.Extents.{extent_of};
ghost use Rattle.porch_metrics.specs.Places.{place_of};
ghost use Rattle.porch_find.specs.inside.Forms.{layout_in};
ghost use Rattle.porch_find.specs.inside.Measured.{AreMeasured};

use porch_metrics::{
    Metrics, elements_are_aligned, extents_are_bounded, places_add_up, places_are_bounded,
    places_rise, subobjects_lie_apart, ucf_is_a_layout,
};
use porch_types::{leaves_add_up, rows_lie_inside};

/// How an object lies in bytes.
#[derive(Clone, Copy)]
pub(crate) enum Form {
    Native,
    Packed,
}

/// The size of a type.
pub(crate) fn size_in(metrics: &Metrics, form: Form, ty: u32) -> u64
    requires { ty < length metrics.now.types }
    ensures { result ≡ (extent_of (layout_in form metrics.now.layout) metrics.now.types ty).size }
{
    match form {
        Form::Native => metrics.size(ty),
        Form::Packed => metrics.ucf_size(ty),
    }
}

/// Where a leaf of a type begins.
pub(crate) fn place_in(metrics: &Metrics, form: Form, ty: u32, leaf: u64) -> u64
    requires known { ty < length metrics.now.types }
    requires near { leaf ≤ 2 ^ 52 }
    ensures { result ≡ place_of (layout_in form metrics.now.layout) metrics.now.types ty leaf }
{
    match form {
        Form::Native => metrics.place(ty, leaf),
        Form::Packed => metrics.ucf_place(ty, leaf),
    }
}

/// What is true of places in each form.
pub(crate) fn forms_are_measured(metrics: &Metrics, form: Form)
    ensures { AreMeasured (layout_in form metrics.now.layout) metrics.now.types }
{
    let _layout = metrics.layout();
    ucf_is_a_layout();
    all_are_measured();
}

/// What is true of places under each layout.
pub(crate) fn all_are_measured()
    ensures { (under : Layout) (types : List Ty) → IsLayout under → IsTypes types
        → AreMeasured under types }
{
    leaves_add_up();
    rows_lie_inside();
    extents_are_bounded();
    places_are_bounded();
    places_rise();
    elements_are_aligned();
    places_add_up();
    subobjects_lie_apart();
}
