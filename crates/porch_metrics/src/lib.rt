//! Sizes, alignments and places of types under a layout, and packed as in a UCF file. It stands on
//! `porch_types` and `porch_layout`. Start at `Metrics`; what is true of each layout and each list of
//! types is said by the laws, which are functions without a body.
#![tactic(auto)]

mod descent;
mod laws;
mod metrics;
mod rounding;
mod table;

pub use laws::{
    elements_are_aligned, extents_add_up, extents_are_bounded, extents_stay, leaves_lie_apart,
    parts_lie_inside, places_add_up, places_are_bounded, places_rise, rounding_up_is_least,
    rows_have_places, subobjects_are_aligned, subobjects_lie_apart, ucf_is_a_layout,
    ucf_leaves_are_packed, ucf_subobjects_are_packed,
};
pub use metrics::Metrics;
