//! From what each token shows to the first that lies too deep: backwards over the tokens.

ghost use Rattle.std.specs.Prelude.{◌≡◌, ◌<◌, ◌+◌, ◌∷◌, IfOk, List, length};
ghost use Rattle.porch_walk.specs.Levels.{shown};
ghost use Rattle.porch_depth.specs.Levels.{deep_from};
ghost use Rattle.porch_depth.specs.inside.Reads.{IsSwept};

use crate::take::more_uses;
use porch_walk::Reading;
use std::alloc::{AllocError, Global};

/// The most counted uses of the grammar that may lie in one another.
const MOST_USES: u32 = 200;

/// Late uses, behind some token.
#[derive(Drop)]
pub(crate) struct Sweep {
    /// How many put that token one use deeper.
    pub(crate) covering: u32,
    /// How many begin with each token before.
    pub(crate) endings: Vec<u32>,
}

// goes over one more token, the one before
fn sweep_on(sweep: &mut Sweep, reading: Reading, place: usize) -> Result<(), AllocError>
    requires { place < length sweep.old.endings.items }
    ensures swept { IfOk result (λ _. (rs : List _) → IsSwept rs (place + 1) sweep.old
        → IsSwept (reading ∷ rs) place sweep.new) }
    ensures room { length sweep.new.endings.items ≡ length sweep.old.endings.items }
{
    sweep.covering = sweep.covering.saturating_sub(sweep.endings[place]);
    if reading.back > 0 {
        sweep.covering = more_uses(sweep.covering, 1)?;
        let back = reading.back as usize;
        if back <= place {
            let start = place - back;
            let more = more_uses(sweep.endings[start], 1)?;
            sweep.endings[start] = more;
        }
    }
    Ok(())
}

/// The first token that lies too deep.
pub(crate) fn first_deep(alloc: Global, readings: &[Reading]) -> Result<Option<usize>, AllocError>
    ensures { IfOk result (λ found. found ≡ deep_from 0 (shown readings.now)) }
{
    let mut sweep = Sweep {
        covering: 0,
        endings: vec![in alloc; 0; readings.len()]?,
    };
    let mut found = None;
    for place in (0..readings.len()).rev() {
        let reading = readings[place];
        if more_uses(reading.uses, sweep.covering)? > MOST_USES {
            found = Some(place);
        }
        sweep_on(&mut sweep, reading, place)?;
    }
    Ok(found)
}
