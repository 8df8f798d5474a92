//! What is true of each layout and each list of types.

ghost use Rattle.std.specs.Prelude.{◌≡◌, ◌<◌, ◌≤◌, ◌%◌, ℕ};
ghost use Rattle.porch_layout.specs.Layouts.{IsLayout};
ghost use Rattle.porch_metrics.specs.Extents.{round_up, ucf_layout};
ghost use Rattle.porch_metrics.specs.Bounds.{ExtentsAreBounded, PlacesAreBounded};
ghost use Rattle.porch_metrics.specs.Bounds.{ElementsHavePlaces, ElementsAreAligned, RoundsUpLeast};
ghost use Rattle.porch_metrics.specs.PlacedRows.{RowsHavePlaces, PlacesAreOfRows};
ghost use Rattle.porch_metrics.specs.PlacedRows.{LeavesStandInRows, ElementsStandInRows};
ghost use Rattle.porch_metrics.specs.PlacedRows.{LeavesStandInSubobjects, MembersHavePlaces};
ghost use Rattle.porch_metrics.specs.PlacedRows.{SubobjectsAreAligned, RootsAreAligned};
ghost use Rattle.porch_metrics.specs.Apart.{PlacesRise, PartsLieInside, SubobjectsLieApart};
ghost use Rattle.porch_metrics.specs.Apart.{LeavesLieApart, SubobjectsArePacked, LeavesArePacked};
ghost use Rattle.porch_metrics.specs.AddingUp.{ExtentsAddUp, ArraysAddUp, PointersAreAlike};
ghost use Rattle.porch_metrics.specs.AddingUp.{ExtentsStay, PlacesStay};

use porch_types::{earlier_types_stay, leaves_add_up, leaves_are_scalars};

/// The layout whose places are those of a UCF file is one that may be used.
pub fn ucf_is_a_layout()
    ensures { IsLayout ucf_layout }
{}

/// A type has at least one byte and at most eight for each leaf, in whole alignments.
pub fn extents_are_bounded()
    ensures { ExtentsAreBounded }
{
    leaves_add_up();
}

/// A leaf begins at most eight bytes in for each leaf before it.
pub fn places_are_bounded()
    ensures { PlacesAreBounded }
{
    leaves_add_up();
}

/// A type has the extent that those of its parts give it.
pub fn extents_add_up()
    ensures parts { ExtentsAddUp }
    ensures arrays { ArraysAddUp }
    ensures pointers { PointersAreAlike }
{}

/// Types that are added leave the extents and places of the earlier ones as they are.
pub fn extents_stay()
    ensures extents { ExtentsStay }
    ensures places { PlacesStay }
{
    leaves_add_up();
    earlier_types_stay();
}

/// Later leaves stand at later places.
pub fn places_rise()
    ensures { PlacesRise }
{
    leaves_add_up();
}

/// An element or a member ends inside its array or struct.
pub fn parts_lie_inside()
    ensures { PartsLieInside }
{
    leaves_add_up();
}

/// A subobject ends at or before each leaf that follows its last one.
pub fn subobjects_lie_apart()
    ensures { SubobjectsLieApart }
{
    leaves_add_up();
}

/// A leaf ends at or before the next one.
pub fn leaves_lie_apart()
    ensures { LeavesLieApart }
{
    leaves_add_up();
    leaves_are_scalars();
}

/// In a UCF file the leaf after a subobject begins where the subobject ends.
pub fn ucf_subobjects_are_packed()
    ensures { SubobjectsArePacked }
{
    leaves_add_up();
}

/// In a UCF file each leaf begins where the one before it ends.
pub fn ucf_leaves_are_packed()
    ensures { LeavesArePacked }
{
    leaves_add_up();
    leaves_are_scalars();
}

/// Elements stand at their size times their number, which is a multiple of their alignment.
pub fn elements_are_aligned()
    ensures place { ElementsHavePlaces }
    ensures aligned { ElementsAreAligned }
{
    leaves_add_up();
}

/// A row of a root begins where its first leaf does.
pub fn rows_have_places()
    ensures each { RowsHavePlaces }
    ensures only { PlacesAreOfRows }
{
    leaves_add_up();
}

/// A leaf of a row or a subobject stands as far after its beginning as in the type alone.
pub fn places_add_up()
    ensures leaves { LeavesStandInRows }
    ensures elements { ElementsStandInRows }
    ensures subobjects { LeavesStandInSubobjects }
    ensures members { MembersHavePlaces }
{
    leaves_add_up();
}

/// A subobject stands at a multiple of its alignment, and so does its root.
pub fn subobjects_are_aligned()
    ensures place { SubobjectsAreAligned }
    ensures root { RootsAreAligned }
{
    leaves_add_up();
}

/// A place is rounded up to the lowest multiple of an alignment at or after it.
pub fn rounding_up_is_least()
    ensures multiple { (place align : ℕ) → 0 < align → round_up place align % align ≡ 0 }
    ensures after { (place align : ℕ) → 0 < align → place ≤ round_up place align }
    ensures least { RoundsUpLeast }
{}
