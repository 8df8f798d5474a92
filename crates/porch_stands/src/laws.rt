//! What is proved of machines whose memory stands for a state. The functions are laws, and have nothing to run.

ghost use Rattle.std.specs.Prelude.{List};
ghost use Rattle.porch_types.specs.declared.shapes.Ty.{Ty};
ghost use Rattle.porch_types.specs.Leaves.{IsTypes};
ghost use Rattle.porch_layout.specs.declared.layout.Layout.{Layout};
ghost use Rattle.porch_layout.specs.Layouts.{IsLayout};
ghost use Rattle.porch_stands.specs.Follows.{StepsFollow};
ghost use Rattle.porch_stands.specs.Leaves.{OtherLeavesStay, WrittenLeavesAreRead, ChangedLeavesStand};
ghost use Rattle.porch_stands.specs.Placed.{ObjectsArePlaced, ValidProgramsHaveTypes};
ghost use Rattle.porch_stands.specs.inside.Measured.{AreMeasured};

use porch_bytes::{numbers_are_read_back, other_bytes_stay};
use porch_metrics::{
    elements_are_aligned, extents_add_up, extents_are_bounded, leaves_lie_apart,
    rounding_up_is_least,
};
use porch_types::{leaf_types_go_by_parts, leaves_are_scalars};

/// In a valid program the types of globals and variables are of the program.
pub fn valid_programs_have_types()
    ensures { ValidProgramsHaveTypes }
{}

/// Each object that lives lies in one part of memory, aligned.
pub fn a_state_is_stood_for()
    ensures { ObjectsArePlaced }
{
    all_are_measured();
}

/// A number that is written to a leaf leaves every other leaf as it is.
pub fn other_leaves_stay()
    ensures { OtherLeavesStay }
{
    all_are_measured();
}

/// A number of a leaf's type that is written to it is read there again.
pub fn written_leaves_are_read()
    ensures { WrittenLeavesAreRead }
{
    all_are_measured();
}

/// A leaf becomes a value of its type, and its bytes the number of that: the machine stands for the state again.
pub fn changed_leaves_stand()
    ensures { ChangedLeavesStand }
{
    all_are_measured();
}

/// A command that touches no object leads from a machine that stands for a state to one that stands for the next.
pub fn steps_follow()
    ensures { StepsFollow }
{}

// What is true of leaves and of memory under each layout.
fn all_are_measured()
    ensures { (under : Layout) (types : List Ty) → IsLayout under → IsTypes types
        → AreMeasured under types }
{
    elements_are_aligned();
    extents_add_up();
    extents_are_bounded();
    leaf_types_go_by_parts();
    leaves_are_scalars();
    leaves_lie_apart();
    numbers_are_read_back();
    other_bytes_stay();
    rounding_up_is_least();
}
