//! How a run in one call stops.

use porch_stack::step::Step;

/// Why a run came back.
#[derive(Clone, Copy, Debug, PartialEq, Eq)]
pub enum Stop {
    /// One turn more than allowed would begin.
    Paused,
    /// A step answered other than that the run goes on.
    Answered(Step),
}
