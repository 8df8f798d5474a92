//! An example worked out: a checkpoint of one frame, its state, and how the run goes on from there.

ghost use Rattle.std.specs.Prelude.{◌≡◌, [], pos, codes};
ghost use Rattle.porch_objects.specs.Meaning.{Ended};
ghost use Rattle.porch_flat.specs.whole.Worked.{saving_program};
ghost use Rattle.porch_abstract.specs.whole.Worked.{seen_as};
ghost use Rattle.porch_states.specs.ImageState.{IsStateOf};
ghost use Rattle.porch_states.specs.Worked.{seen_from_there, worked_image, worked_state};

/// A checkpoint of `int main(void){checkpoint();putchar('A');return 0;}` stands for a state from which the
/// run goes on behind the call: it shows `A` and ends with 0, in the turn of the checkpoint.
pub fn a_saved_frame()
    ensures state { IsStateOf saving_program worked_image [] worked_state }
    ensures goes_on { seen_from_there 1 ≡ seen_as (codes "A") 1 (Ended (pos 0)) }
{}
