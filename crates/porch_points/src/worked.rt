//! An example worked out: pointers into an array of three `int`s, and their words.

ghost use Rattle.std.specs.Prelude.{ℕ};
ghost use Rattle.porch_layout.specs.Layouts.{le32};
ghost use Rattle.porch_find.specs.Worked.{worked_types, int_number};
ghost use Rattle.porch_points.specs.Plans.{IsPlan, LieApart, dead_word};
ghost use Rattle.porch_points.specs.Words.{IsWordOf, IsAddressOf};
ghost use Rattle.porch_points.specs.Worked.{worked_addresses, worked_places};

use porch_find::worked_types_are_types;
use porch_metrics::places_rise;
use porch_types::rows_are_found;

/// Of `int b[3]` at address 16, first in the data: the end of `b` has the word 19, `&b[1]` has 10,
/// and an address between elements is dead. The word 15, the end of a subobject at place 6, names
/// nothing.
pub fn pointers_into_an_array()
    ensures plan { IsPlan le32 worked_types worked_addresses worked_places }
    ensures apart { LieApart le32 worked_types worked_addresses }
    ensures end { IsWordOf le32 worked_types worked_addresses worked_places int_number 28 19 }
    ensures element { IsWordOf le32 worked_types worked_addresses worked_places int_number 20 10 }
    ensures between { IsWordOf le32 worked_types worked_addresses worked_places int_number 18
        dead_word }
    ensures bad { (address : ℕ) → IsAddressOf le32 worked_types worked_addresses worked_places
        int_number 15 address → ⊥ }
{
    worked_types_are_types();
    rows_are_found();
    places_rise();
}
