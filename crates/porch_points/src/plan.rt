//! Where the live objects are, in memory and in the data of a checkpoint.

ghost use Rattle.std.specs.Prelude.{◌≡◌};
ghost use Rattle.porch_points.specs.Plans.{dead_word};

use porch_find::Roots;

/// The live objects in the order of the checkpoint, with their addresses and with their places in
/// its data.
#[derive(Drop)]
pub struct Plan {
    pub addresses: Roots,
    pub places: Roots,
}

/// The word of a pointer that points to nothing that lives.
pub const DEAD: u64 = u64::MAX;

/// The dead word has all bits set.
pub fn dead_is_all_ones()
    ensures { DEAD ≡ dead_word }
{}
