//! The abstract machine.

ghost use Rattle.std.specs.Prelude.{◌≡◌, ◌<◌, ◌^◌, IsTrue, IfOk};
ghost use Rattle.porch_objects.specs.Meaning.{without_input};
ghost use Rattle.porch_abstract.specs.Machine.{begin, next};
ghost use Rattle.porch_abstract.specs.Run.{counts_next};
ghost use Rattle.porch_abstract.specs.Held.{Fits, Continues, Answers};

use crate::phase::{AStep, Phase};
use crate::run::{Run, command_at, is_turn};
use porch_flat::{Labels, Valid};
use porch_values::Widths;
use std::alloc::{AllocError, Global};
use std::marker::Model;

/// A run of a program.
#[derive(Drop)]
pub struct Abstract {
    alloc: Global,
    widths: Widths,
    labels: Labels,
    run: Run,
}

impl Model for Abstract {
    ghost use Rattle.porch_objects.specs.Meaning.{without_input};
    ghost use Rattle.porch_abstract.specs.Held.{Held};
    ghost use Rattle.porch_abstract.specs.inside.Kept.{state_of};

    ghost Value = { Held };

    ghost view = { λ a. record { under = without_input a.widths; state = state_of a.run; labels = a.labels } };
}

impl Abstract {
    /// A run before turn 1, for these widths of `long`, over an input that is empty.
    pub fn new(alloc: Global, program: &Valid, widths: Widths) -> Result<Abstract, AllocError>
        ensures begins { IfOk result (λ a. a.state ≡ begin program.now) }
        ensures under { IfOk result (λ a. a.under ≡ without_input widths) }
        ensures fits { IfOk result (λ a. Fits program.now a) }
    {
        let labels = Labels::new(alloc, program.main().commands.as_slice())?;
        Ok(Abstract {
            alloc,
            widths,
            labels,
            run: Run::new(alloc),
        })
    }

    /// Takes the next step of the run: before turn 1 it calls `main`, then it is one command. After a refusal the machine is
    /// unchanged.
    pub fn step(&mut self, program: &Valid) -> Result<AStep, AllocError>
        requires fits { Fits program.now self.old }
        requires continues { Continues self.old.state }
        requires turns { IsTrue (counts_next program.now self.old.under self.old.state.phase)
            → self.old.state.turns < 2 ^ 62 }
        ensures steps { Answers (next program.now self.old.under self.old.state)
            self.old.state self.new.state result }
        ensures fits { Fits program.now self.new }
        ensures under_same { self.new.under ≡ self.old.under }
        ensures goes_on { result ≡ Ok AStep.Went → Continues self.new.state }
    {
        match self.run.phase {
            Phase::Begun => self.run.enter(self.alloc, program.main().vars.len()),
            Phase::Running => self.run.proceed(program.main(), &self.labels, self.widths),
            Phase::Over => unreachable!(),
        }
    }

    /// Whether the next step counts a turn. It takes no memory.
    pub fn turn_next(&self, program: &Valid) -> bool
        requires { Fits program.now self.now }
        ensures { result ≡ counts_next program.now self.now.under self.now.state.phase }
    {
        match self.run.phase {
            Phase::Begun => true,
            Phase::Running => is_turn(command_at(
                program.main().commands.as_slice(),
                self.run.next,
            )),
            Phase::Over => false,
        }
    }

    /// What was shown so far. It takes no memory.
    pub fn output(&self) -> &[u8]
        ensures { result.now ≡ self.now.state.output }
    {
        self.run.output.as_slice()
    }

    /// The turns that were counted. It takes no memory.
    pub fn turns(&self) -> u64
        ensures { result ≡ self.now.state.turns }
    {
        self.run.turns
    }
}
