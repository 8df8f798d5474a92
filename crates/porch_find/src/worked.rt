//! Examples worked out: what bytes of an array of structs name.

ghost use Rattle.std.specs.Prelude.{◌≡◌, false};
ghost use Rattle.porch_types.specs.Leaves.{IsTypes};
ghost use Rattle.porch_layout.specs.Layouts.{le32, le64};
ghost use Rattle.porch_find.specs.declared.spot.Spot.{Spot};
ghost use Rattle.porch_find.specs.Spots.{IsSpot};
ghost use Rattle.porch_find.specs.Worked.{worked_types, int_number, two_structs};

use crate::forms::all_are_measured;
use porch_types::rows_are_found;

/// The list of types is one.
pub fn worked_types_are_types()
    ensures { IsTypes worked_types }
{}

/// Of `struct s {int x; long y; int a[3];} s[2]`, with pointers to `int`: in le32 byte 20 is where
/// `s[1].x` begins, and nothing else. In le64 byte 28 names nothing: `s[0].a` ends there, and by
/// leaves its end is shared with `s[1].x`, which begins at byte 32.
pub fn ends_of_members()
    ensures begins { IsSpot le32 worked_types two_structs 1 20 int_number
        (record { leaf = 5; past = false }) }
    ensures only { (spot : Spot) → IsSpot le32 worked_types two_structs 1 20 int_number spot
        → spot ≡ record { leaf = 5; past = false } }
    ensures shared { (spot : Spot) → IsSpot le64 worked_types two_structs 1 28 int_number spot
        → ⊥ }
{
    all_are_measured();
    rows_are_found();
}
