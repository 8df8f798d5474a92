//! What is true of memory and of whole runs.

ghost use Rattle.std.specs.Prelude.{ℕ};
ghost use Rattle.porch_flat.specs.declared.whole.Flat.{Flat};
ghost use Rattle.porch_bytes.specs.Leaf.{OthersStay, NumbersHaveSizes};
ghost use Rattle.porch_bytes.specs.Shapes.{NumbersAreReadBack};
ghost use Rattle.porch_bytes.specs.State.{Setting};
ghost use Rattle.porch_bytes.specs.ByteRun.{IsOneRun};

/// Bytes that are written are read back, and all others stay as they are.
pub fn other_bytes_stay()
    ensures parts { OthersStay }
    ensures sizes { NumbersHaveSizes }
{}

/// A number of a leaf that is written is read back, in either order.
pub fn numbers_are_read_back()
    ensures back { NumbersAreReadBack }
{}

/// A run has one end.
pub fn runs_have_one_end()
    ensures one { (flat : Flat) (on : Setting) (n : ℕ) → IsOneRun flat on n }
{}
