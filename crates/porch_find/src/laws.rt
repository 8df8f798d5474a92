//! What is true of spots under each layout and in each list of types.

ghost use Rattle.porch_find.specs.Spots.{SubobjectsAreNamed, RowEndsAreNamed, SpotsAreOne};
ghost use Rattle.porch_find.specs.Spots.{SubobjectsEndInside};

use crate::forms::all_are_measured;

/// A subobject is named by its place, the end of a row by the byte after it, and a byte names at
/// most one spot of a type.
pub fn places_name_spots()
    ensures begins { SubobjectsAreNamed }
    ensures ends { RowEndsAreNamed }
    ensures only { SpotsAreOne }
{
    all_are_measured();
}

/// A subobject ends at or before the end of its object.
pub fn subobjects_end_inside()
    ensures { SubobjectsEndInside }
{
    all_are_measured();
}
