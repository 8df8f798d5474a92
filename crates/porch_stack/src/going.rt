//! How a machine goes on in a function.

ghost use Rattle.std.specs.Prelude.{◌≡◌, ◌≤◌, ◌+◌, ◌^◌, ℕ};
ghost use Rattle.porch_flat.specs.declared.whole.Flat.{Flat};
ghost use Rattle.porch_bytes.specs.State.{Setting};
ghost use Rattle.porch_bytes.specs.Column.{going_to, turned};
ghost use Rattle.porch_operations.specs.Operations.{Work};
ghost use Rattle.porch_load.specs.declared.loaded.Loaded.{Loaded};
ghost use Rattle.porch_stack.specs.declared.spot.Stage.TheVariants.{Running};
ghost use Rattle.porch_stack.specs.Holding.{frame_of, callers_of, state_of, Stands};

use crate::spot::Spot;

/// Goes on at another place of the innermost frame's function.
pub fn move_to(spot: &mut Spot, place: usize)
    requires stage { spot.old.stage ≡ Running }
    ensures state { (flat : Flat) (on : Setting) (w : Work) → state_of spot.new w
        ≡ going_to flat on (frame_of spot.old.frame) (callers_of spot.old.callers.items) place
        (state_of spot.old w) }
    ensures stands { (l : Loaded) (size : ℕ) → Stands l spot.old size → Stands l spot.new size }
    ensures turns { spot.new.turns ≡ spot.old.turns }
{
    spot.frame.next = place;
}

/// Counts a turn, and goes on at another place of the innermost frame's function.
pub fn count_turn(spot: &mut Spot, place: usize)
    requires stage { spot.old.stage ≡ Running }
    requires few { spot.old.turns ≤ 2 ^ 62 }
    ensures state { (flat : Flat) (on : Setting) (w : Work) → state_of spot.new w
        ≡ going_to flat on (frame_of spot.old.frame) (callers_of spot.old.callers.items) place
        (turned (state_of spot.old w)) }
    ensures stands { (l : Loaded) (size : ℕ) → Stands l spot.old size → Stands l spot.new size }
    ensures turns { spot.new.turns ≡ spot.old.turns + 1 }
{
    spot.frame.next = place;
    spot.turns += 1;
}
