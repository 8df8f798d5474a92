//! Objects and what is said of a run: definitions that the meaning of a source and the machines have in common.
//!
//! `specs/Store` has objects, values and the store; `specs/Meaning` what surrounds a run, how it ends and what it shows;
//! `specs/Pointers` what is done through pointers. There is no code to run: each function here states a law.
#![tactic(auto)]

ghost use Rattle.std.specs.Prelude.{ℕ, ℤ, List};
ghost use Rattle.porch_objects.specs.Store.{Home, Value, Object, Store};
ghost use Rattle.porch_objects.specs.Laws.{StoresAt, SeenOnce, ForgetsEnds, EndsWithItsCall, EndsWhereFreed, IsTruth, IsLowByte};

pub mod worked;

/// A stored value is read back, and every other leaf is as it was.
pub fn stores_one_leaf()
    ensures { (s : Store) (home : Home) (leaf : ℕ) (v : Value) → StoresAt s home leaf v }
{}

/// Seeing a value twice is seeing it once.
pub fn seeing_is_once()
    ensures { SeenOnce }
{}

/// A call's variables live from its beginning to its end.
pub fn variables_end_with_their_call()
    ensures { (s : Store) (variables : List Object) → EndsWithItsCall s variables }
{}

/// An allocation lives from where it is made to where it is freed.
pub fn allocations_end_where_freed()
    ensures { (s : Store) (object : Object) → EndsWhereFreed s object }
{}

/// A `checkpoint()` that is reached ends what is known of a shared end, and nothing else.
pub fn checkpoints_forget_ends()
    ensures { (s : Store) (home : Home) (leaf : ℕ) → ForgetsEnds s home leaf }
{}

/// A comparison is 1 where it holds, else 0.
pub fn comparisons_are_ints()
    ensures { (x y : ℤ) → IsTruth x y }
{}

/// A number is shown by its low byte: the byte from which it differs by a multiple of 256.
pub fn low_bytes_are_shown()
    ensures { (n : ℕ) → IsLowByte n }
{}
