//! What is proved of every run. The functions are laws, and have nothing to run.

ghost use Rattle.porch_mean.specs.Laws.{CallsOnlyAdd, DepthDoesNotMatter, MoreTurnsGoOn, TurnsAreCounted, FewerWidthsMeanTheSame};

use porch_values::fewer_widths_agree;

/// A call only adds to what was shown and marked, and to the turns, however it comes out.
pub fn calls_only_add()
    ensures { CallsOnlyAdd }
{}

/// How deep calls may be nested doesn't matter, where it is more than the turns that are left.
pub fn depth_does_not_matter()
    ensures { DepthDoesNotMatter }
{}

/// With more turns a program means the same, unless it is paused; then it goes on from there.
pub fn more_turns_go_on()
    ensures { MoreTurnsGoOn }
{}

/// A program counts as many turns as it is allowed at most, and where it is paused exactly so many.
pub fn turns_are_counted()
    ensures { TurnsAreCounted }
{}

/// What a program means in some widths of `long` without undefined behaviour, it means in fewer of them.
pub fn fewer_widths_mean_the_same()
    ensures { FewerWidthsMeanTheSame }
{
    fewer_widths_agree();
}
