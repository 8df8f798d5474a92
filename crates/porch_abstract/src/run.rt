//! What is kept of a run, and how an effect changes it.

ghost use Rattle.std.specs.Prelude.{◌≡◌, ◌<◌, ◌+◌, ◌^◌, ℕ, [], Some, IfOk, OnOk, OnErr, slice_get, slice_set, length, replicate, IsTrue};
ghost use Rattle.porch_flat.specs.Parts.{counts};

use crate::effects::{Effect, compute};
use crate::phase::{AStep, Phase};
use porch_flat::{Command, Function, Labels};
use porch_values::Widths;
use std::alloc::{AllocError, Global};

/// A run of `main`: its variables, the place of the next command, what was shown, and the turns.
#[derive(Drop)]
pub(crate) struct Run {
    pub(crate) phase: Phase,
    pub(crate) vars: Vec<Option<i32>>,
    pub(crate) next: usize,
    pub(crate) output: Vec<u8>,
    pub(crate) turns: u64,
}

pub(crate) fn command_at(commands: &[Command], place: usize) -> Option<Command>
    ensures { result ≡ slice_get commands.now place }
{
    commands.get(place).copied()
}

pub(crate) fn is_turn(command: Option<Command>) -> bool
    ensures { result ≡ counts command }
{
    match command {
        Some(Command::Turn) => true,
        Some(_) => false,
        None => false,
    }
}

fn write(vars: &mut [Option<i32>], variable: u32, value: i32)
    ensures { vars.new ≡ slice_set vars.old variable (Some value) }
{
    let at = variable as usize;
    if at < vars.len() {
        vars[at] = Some(value);
    }
}

// So many variables without a value.
fn unset(alloc: Global, count: usize) -> Result<Vec<Option<i32>>, AllocError>
    ensures { IfOk result (λ vars. vars.items ≡ replicate count None) }
{
    vec![in alloc; None; count]
}

impl Run {
    ghost use Rattle.porch_abstract.specs.inside.Kept.{state_of, state_in, Led, Called};
    ghost use Rattle.porch_abstract.specs.inside.Effects.{effect_at};
    ghost use Rattle.porch_flat.specs.Labelled.{place_in};
    ghost use Rattle.porch_flat.specs.Places.{place_of_label};
    ghost use Rattle.porch_flat.specs.Valid.{IsMain};

    /// Before turn 1.
    pub(crate) fn new(alloc: Global) -> Run
        ensures begins { state_of result ≡ state_in Phase.Begun [] 0 [] 0 }
    {
        Run {
            phase: Phase::Begun,
            vars: Vec::new(alloc),
            next: 0,
            output: Vec::new(alloc),
            turns: 0,
        }
    }

    /// Calls `main`, which has so many variables.
    pub(crate) fn enter(&mut self, alloc: Global, count: usize) -> Result<AStep, AllocError>
        requires { self.old.turns < 2 ^ 62 }
        ensures went { Called self.old self.new count result }
    {
        self.vars = unset(alloc, count)?;
        self.phase = Phase::Running;
        self.next = 0;
        self.turns += 1;
        Ok(AStep::Went)
    }

    /// The next command of `main`, and behind the last its end.
    #[tactic(auto, using(crate::proofs::Allowed::main_ints, crate::proofs::Allowed::place_behind, crate::proofs::Allowed::counted_turn))]
    pub(crate) fn proceed(
        &mut self,
        main: &Function,
        labels: &Labels,
        widths: Widths,
    ) -> Result<AStep, AllocError>
        requires main { IsMain main.now }
        requires labels { (n : ℕ) → place_in labels.now n ≡ place_of_label main.now.commands n }
        requires running { self.old.phase ≡ Phase.Running }
        requires turns { IsTrue (counts (slice_get main.now.commands self.old.next))
            → self.old.turns < 2 ^ 62 }
        ensures led { Led self.old self.new
            (effect_at self.old.vars.items labels.now (length main.now.commands) widths
            (slice_get main.now.commands self.old.next)) result }
    {
        let commands = main.commands.as_slice();
        match command_at(commands, self.next) {
            Some(command) => {
                let effect = compute(command, &self.vars, labels, commands.len(), widths);
                self.take(effect)
            }
            None => Ok(self.end(0)),
        }
    }

    /// What an effect of the command at `next` leads to.
    pub(crate) fn take(&mut self, effect: Effect) -> Result<AStep, AllocError>
        requires running { self.old.phase ≡ Phase.Running }
        requires place { self.old.next + 1 < 2 ^ 64 }
        requires turns { effect ≡ Effect.Count → self.old.turns < 2 ^ 62 }
        ensures led { Led self.old self.new effect result }
    {
        match effect {
            Effect::On => Ok(self.on()),
            Effect::Set(variable, value) => Ok(self.set(variable, value)),
            Effect::Show(variable, byte) => self.show(variable, byte),
            Effect::Go(place) => Ok(self.go(place)),
            Effect::Count => Ok(self.count()),
            Effect::End(value) => Ok(self.end(value)),
            Effect::Meet(act) => Ok(AStep::Act { act }),
        }
    }

    fn on(&mut self) -> AStep
        requires running { self.old.phase ≡ Phase.Running }
        requires place { self.old.next + 1 < 2 ^ 64 }
        ensures led { Led self.old self.new Effect.On (Ok result) }
    {
        self.next += 1;
        AStep::Went
    }

    fn set(&mut self, variable: u32, value: i32) -> AStep
        requires running { self.old.phase ≡ Phase.Running }
        requires place { self.old.next + 1 < 2 ^ 64 }
        ensures led { Led self.old self.new (Effect.Set variable value) (Ok result) }
    {
        write(&mut self.vars, variable, value);
        self.next += 1;
        AStep::Went
    }

    fn show(&mut self, variable: u32, byte: u8) -> Result<AStep, AllocError>
        requires running { self.old.phase ≡ Phase.Running }
        requires place { self.old.next + 1 < 2 ^ 64 }
        ensures led { Led self.old self.new (Effect.Show variable byte) result }
    {
        self.output.push(byte)?;
        write(&mut self.vars, variable, 1);
        self.next += 1;
        Ok(AStep::Went)
    }

    fn go(&mut self, place: usize) -> AStep
        requires running { self.old.phase ≡ Phase.Running }
        ensures led { Led self.old self.new (Effect.Go place) (Ok result) }
    {
        self.next = place;
        AStep::Went
    }

    fn count(&mut self) -> AStep
        requires running { self.old.phase ≡ Phase.Running }
        requires place { self.old.next + 1 < 2 ^ 64 }
        requires turns { self.old.turns < 2 ^ 62 }
        ensures led { Led self.old self.new Effect.Count (Ok result) }
    {
        self.next += 1;
        self.turns += 1;
        AStep::Went
    }

    /// `main` returns this value.
    pub(crate) fn end(&mut self, value: i32) -> AStep
        requires running { self.old.phase ≡ Phase.Running }
        ensures led { Led self.old self.new (Effect.End value) (Ok result) }
    {
        self.phase = Phase::Over;
        AStep::Ended { value }
    }
}
