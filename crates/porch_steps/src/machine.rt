//! The abstract machine.

ghost use Rattle.std.specs.Prelude.{◌≡◌, IfOk};
ghost use Rattle.porch_objects.specs.Meaning.{without_input};
ghost use Rattle.porch_abstract.specs.Held.{Answers};
ghost use Rattle.porch_abstract.specs.whole.Machine.{begin, next};
ghost use Rattle.porch_abstract.specs.whole.Run.{counts_next};
ghost use Rattle.porch_steps.specs.Held.{Fits};
ghost use Rattle.porch_steps.specs.Ran.{Ran};

use crate::beginning::{global_objects, labels_of};
use crate::run::Run;
use porch_abstract::AStep;
use porch_flat::whole::{Labels, Valid};
use porch_quick::Prepared;
use porch_values::Widths;
use std::alloc::{AllocError, Global};
use std::marker::Model;

/// A run of a program, over an input that is empty. Contracts see its state, which is that of the definitions, the
/// environment that it was made for, and the places of the labels and the quick commands of its program.
#[derive(Drop)]
pub struct Abstract {
    alloc: Global,
    widths: Widths,
    labels: Vec<Labels>,
    prepared: Prepared,
    run: Run,
}

impl Model for Abstract {
    ghost use Rattle.porch_objects.specs.Meaning.{without_input};
    ghost use Rattle.porch_steps.specs.Held.{Held};
    ghost use Rattle.porch_steps.specs.inside.Kept.{state_of};

    ghost Value = { Held };

    ghost view = { λ a. record { under = without_input a.widths; state = state_of a.run; labels = a.labels.items; prepared = a.prepared } };
}

impl Abstract {
    /// A run before turn 1, for these widths of `long`, over an input that is empty. The time is linear in
    /// the program and the leaves of its globals.
    pub fn new(alloc: Global, program: &Valid, widths: Widths) -> Result<Abstract, AllocError>
        ensures begins { IfOk result (λ a. a.state ≡ begin program.now) }
        ensures under { IfOk result (λ a. a.under ≡ without_input widths) }
        ensures fits { IfOk result (λ a. Fits program.now a) }
    {
        let flat = program.flat();
        let labels = labels_of(alloc, flat.functions.as_slice())?;
        let prepared = Prepared::new(alloc, flat)?;
        let globals = global_objects(alloc, &flat.types, flat.globals.as_slice())?;
        Ok(Abstract {
            alloc,
            widths,
            labels,
            prepared,
            run: Run::new(alloc, globals),
        })
    }

    /// Takes the next step of the run: before turn 1 it calls `main`, then it is one command, or the end behind the
    /// last one. Its time is the logarithm of what lives, and the bytes and leaves that it moves. After a refusal the
    /// machine is unchanged. It refuses for want of memory, and also where turns, calls, allocations or checkpoints would
    /// pass 2^64 - 1, and where a number isn't one of the type that its place asks for: an operand of an operator, the
    /// value of `main`, or one of more than 64 bits that is shown in hexadecimal.
    pub fn step(&mut self, program: &Valid) -> Result<AStep, AllocError>
        requires fits { Fits program.now self.old }
        ensures steps { Answers (next program.now self.old.under self.old.state)
            self.old.state self.new.state result }
        ensures fits { Fits program.now self.new }
        ensures under_same { self.new.under ≡ self.old.under }
    {
        let flat = program.flat();
        self.run
            .take_next(self.alloc, flat, &self.labels, self.widths)
    }

    /// Takes steps as [`Abstract::step`] does, until one doesn't answer `Went`, and at most so many: the answer of the
    /// last. So `Went` tells that all were taken. Many steps cost less in one call than in one call each.
    pub fn run(&mut self, program: &Valid, most: u64) -> Result<AStep, AllocError>
        requires fits { Fits program.now self.old }
        ensures ran { Ran program.now self.old.under self.old.state self.new.state most result }
        ensures fits { Fits program.now self.new }
        ensures under_same { self.new.under ≡ self.old.under }
    {
        let flat = program.flat();
        self.run.run(
            self.alloc,
            flat,
            &self.labels,
            &self.prepared,
            self.widths,
            most,
        )
    }

    /// Whether the next step counts a turn. It takes no memory.
    pub fn turn_next(&self, program: &Valid) -> bool
        ensures { result ≡ counts_next program.now self.now.under self.now.state.phase }
    {
        self.run.counts_next(program.flat())
    }

    /// What was shown so far. It takes no memory.
    pub fn output(&self) -> &[u8]
        ensures { result.now ≡ self.now.state.output }
    {
        self.run.output.as_slice()
    }

    /// The turns that were counted. It takes no memory.
    pub fn turns(&self) -> u64
        ensures { result ≡ self.now.state.turns }
    {
        self.run.turns
    }
}
