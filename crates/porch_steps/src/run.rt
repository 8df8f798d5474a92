//! What is kept of a run.

ghost use Rattle.std.specs.Prelude.{◌≡◌, slice_get};
ghost use Rattle.porch_flat.specs.whole.Form.{form_of};
ghost use Rattle.porch_objects.specs.Meaning.{Environment};
ghost use Rattle.porch_abstract.specs.whole.Run.{counts, counts_turn};

use crate::compute::code;
use crate::frame::{Frame, Phase};
use porch_flat::whole::{Command, Flat, Form, form_of_command};
use porch_live::{Object, Store};
use std::alloc::Global;

/// A run: how far it has come, its frame and those of the callers, the innermost last, what lives, what was
/// shown, and the turns.
#[derive(Drop)]
pub(crate) struct Run {
    pub(crate) phase: Phase,
    pub(crate) frame: Frame,
    pub(crate) callers: Vec<Frame>,
    pub(crate) store: Store,
    pub(crate) output: Vec<u8>,
    pub(crate) turns: u64,
}

impl Run {
    ghost use Rattle.porch_abstract.specs.whole.Run.{counts_next};
    ghost use Rattle.porch_steps.specs.inside.Kept.{begun_with, phase_in, state_of};

    /// Before turn 1, with these globals.
    pub(crate) fn new(alloc: Global, globals: Vec<Object>) -> Run
        ensures { state_of result ≡ begun_with globals.items }
    {
        Run {
            phase: Phase::Begun,
            frame: Frame {
                function: 0,
                next: 0,
                into: None,
            },
            callers: Vec::new(alloc),
            store: Store::new(alloc, globals),
            output: Vec::new(alloc),
            turns: 0,
        }
    }

    /// Whether the next step counts a turn.
    pub(crate) fn counts_next(&self, flat: &Flat) -> bool
        ensures { (under : Environment) → result ≡ counts_next flat.now under
            (phase_in self.now.phase self.now.frame self.now.callers.items) }
    {
        match self.phase {
            Phase::Begun => true,
            Phase::Running => counts_at(code(flat, self.frame.function), self.frame.next),
            Phase::Over => false,
        }
    }
}

fn counts_turn(command: &Command) -> bool
    ensures { result ≡ counts_turn (form_of command.now) }
{
    match form_of_command(command) {
        Form::Turn => true,
        Form::Call(_, _, _) => true,
        Form::Move(_, _)
        | Form::Cast(_, _)
        | Form::Operator(_, _, _, _)
        | Form::Complement(_, _)
        | Form::Comparison(_, _, _, _)
        | Form::Subobject(_, _, _)
        | Form::Step(_, _, _, _)
        | Form::Difference(_, _, _)
        | Form::Load(_, _)
        | Form::Store(_, _)
        | Form::Copy(_, _)
        | Form::Kill(_)
        | Form::Allocate(_, _, _)
        | Form::Free(_)
        | Form::Show(_, _, _)
        | Form::Text(_, _)
        | Form::Label(_)
        | Form::Jump(_)
        | Form::Branch(_, _)
        | Form::Return(_)
        | Form::Checkpoint
        | Form::Restore(_)
        | Form::Table(_, _)
        | Form::Saved(_, _)
        | Form::Push(_) => false,
    }
}

fn counts_at(commands: &[Command], place: usize) -> bool
    ensures { result ≡ counts (slice_get commands.now place) }
{
    if place < commands.len() {
        counts_turn(&commands[place])
    } else {
        false
    }
}
