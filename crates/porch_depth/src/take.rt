//! What a token does to the levels of the parts that may come behind it.

ghost use Rattle.std.specs.Prelude.{◌≡◌, ◌+◌, ◌++◌, [], ◌∷◌, map, reverse, IfOk, if◌then◌else◌, Some, None};
ghost use Rattle.porch_walk.specs.Levels.{placed};
ghost use Rattle.porch_walk.specs.Plans.{ahead, took, Plan};
ghost use Rattle.porch_depth.specs.inside.Takes.{with_steps, outcome, TookBy};

use porch_walk::{Level, Step, Taken};
use std::alloc::AllocError;

/// The part that a token is offered to, and the token's number.
#[derive(Clone, Copy, Debug)]
pub(crate) struct Here {
    pub(crate) level: Level,
    pub(crate) token: u32,
}

/// So many uses more. No text has as many uses as can't be counted: they would take more memory than there is.
pub(crate) fn more_uses(uses: u32, more: u32) -> Result<u32, AllocError>
    ensures { IfOk result (λ n. n ≡ uses + more) }
{
    match uses.checked_add(more) {
        Some(sum) => Ok(sum),
        None => Err(AllocError),
    }
}

fn place(here: Here, step: Step) -> Result<Level, AllocError>
    ensures { IfOk result (λ l. l ≡ placed here.level here.token step) }
{
    match step {
        Step::Up(more) => Ok(Level {
            uses: more_uses(here.level.uses, more)?,
            start: here.token,
        }),
        Step::Keep => Ok(here.level),
    }
}

/// Puts parts in front of others, the next one last.
pub(crate) fn put(levels: &mut Vec<Level>, here: Here, steps: &[Step]) -> Result<(), AllocError>
    ensures { IfOk result (λ _. reverse levels.new.items
        ≡ with_steps here (reverse steps.now) (reverse levels.old.items)) }
{
    for step in steps {
        levels.push(place(here, *step)?)?;
    }
    Ok(())
}

/// The token lies so many uses deeper, with these parts behind it, the next one last.
pub(crate) fn lie(
    levels: &mut Vec<Level>,
    here: Here,
    uses: u32,
    steps: &[Step],
) -> Result<Taken, AllocError>
    ensures { IfOk result (λ t. Some (t, reverse levels.new.items)
        ≡ outcome here (took uses (reverse steps.now)) (reverse levels.old.items)) }
{
    put(levels, here, steps)?;
    Ok(Taken {
        uses,
        raises: false,
    })
}

/// Takes the token so many uses deeper, with these parts behind it, the next one last.
pub(crate) fn take(
    levels: &mut Vec<Level>,
    here: Here,
    uses: u32,
    steps: &[Step],
) -> Result<Option<Taken>, AllocError>
    ensures { IfOk result (λ t. TookBy here (took uses (reverse steps.now)) t
        levels.old.items levels.new.items) }
{
    Ok(Some(lie(levels, here, uses, steps)?))
}

/// The same, in front of further parts.
pub(crate) fn take_before(
    levels: &mut Vec<Level>,
    here: Here,
    later: &[Step],
    uses: u32,
    steps: &[Step],
) -> Result<Option<Taken>, AllocError>
    ensures { IfOk result
        (λ t. TookBy here (ahead (took uses (reverse steps.now)) (reverse later.now)) t
        levels.old.items levels.new.items) }
{
    put(levels, here, later)?;
    take(levels, here, uses, steps)
}

/// Takes the token where a test is met.
pub(crate) fn take_if(
    levels: &mut Vec<Level>,
    here: Here,
    test: bool,
    uses: u32,
    steps: &[Step],
) -> Result<Option<Taken>, AllocError>
    ensures { IfOk result (λ t. TookBy here (if test then took uses (reverse steps.now) else None) t
        levels.old.items levels.new.items) }
{
    if test {
        take(levels, here, uses, steps)
    } else {
        Ok(None)
    }
}
