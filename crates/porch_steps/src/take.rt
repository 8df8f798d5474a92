//! What a command leads to is done.

ghost use Rattle.std.specs.Prelude.{◌≡◌, ◌<◌, ◌+◌, ◌++◌, ◌^◌, ◌∷◌, [], List, IfOk, IfSome, Ok, false, length, unsigned_abs};
ghost use Rattle.std.specs.Fmt.{signed_decimal, digits};
ghost use Rattle.porch_flat.specs.declared.whole.Flat.{Flat};
ghost use Rattle.porch_objects.specs.Meaning.{Environment, byte_of};
ghost use Rattle.porch_objects.specs.Store.{with_leaf_at, variable_home};
ghost use Rattle.porch_abstract.specs.Held.{Answers};
ghost use Rattle.porch_abstract.specs.whole.Machine.{text_of};
ghost use Rattle.porch_live.specs.Views.{value_of, home_of};
ghost use Rattle.porch_steps.specs.inside.Effects.{Led, shown_by, number_in, received_in};
ghost use Rattle.porch_steps.specs.inside.Kept.{state_of};

use crate::effect::Effect;
use crate::frame::Phase;
use crate::run::Run;
use itoa::Buffer;
use porch_abstract::AStep;
use porch_flat::whole::Display;
use porch_live::{Home, Store, Value};
use std::alloc::{AllocError, Global};

/// The low byte of a number.
pub(crate) fn low_byte(number: i128) -> u8
    ensures { result ≡ byte_of number }
{
    number.rem_euclid(256).unsigned_abs() as u8
}

fn text_in_decimal(alloc: Global, number: i128) -> Result<Vec<u8>, AllocError>
    ensures { IfOk result (λ text. text.items ≡ signed_decimal number) }
{
    let mut digits = Buffer::new();
    Vec::from_slice(alloc, digits.format(number).as_bytes())
}

fn text_of_digits(alloc: Global, number: u64) -> Result<Vec<u8>, AllocError>
    ensures { IfOk result (λ text. text.items ≡ digits 16 false number) }
{
    let text = format!(in alloc; "{number:x}")?;
    Vec::from_slice(alloc, text.as_bytes())
}

fn text_in_hexadecimal(alloc: Global, number: i128) -> Result<Vec<u8>, AllocError>
    ensures { IfOk result (λ text. text.items ≡ digits 16 false (unsigned_abs number)) }
{
    let magnitude = number.unsigned_abs();
    if magnitude > 18_446_744_073_709_551_615 {
        return Err(AllocError);
    }
    text_of_digits(alloc, magnitude as u64)
}

fn text_of_byte(alloc: Global, byte: u8) -> Result<Vec<u8>, AllocError>
    ensures { IfOk result (λ text. text.items ≡ byte ∷ []) }
{
    Vec::from_slice(alloc, &[byte])
}

// A number as it is shown. Answers `AllocError` also for hexadecimal past 64 bits.
fn text_of_number(alloc: Global, how: Display, number: i128) -> Result<Vec<u8>, AllocError>
    ensures { IfOk result (λ text. text.items ≡ text_of how number) }
{
    match how {
        Display::Char => text_of_byte(alloc, low_byte(number)),
        Display::Dec => text_in_decimal(alloc, number),
        Display::Hex => text_in_hexadecimal(alloc, number),
    }
}

// The number in a value as it is shown, and 0 where it has none.
fn text_of_value(alloc: Global, how: Display, value: Value) -> Result<Vec<u8>, AllocError>
    ensures { IfOk result (λ text. text.items ≡ text_of how (number_in (value_of value))) }
{
    match value {
        Value::Number(number) => text_of_number(alloc, how, number),
        Value::Null => text_of_number(alloc, how, 0),
        Value::Pointer { home: _, leaf: _ } => text_of_number(alloc, how, 0),
        Value::Past {
            home: _,
            leaf: _,
            until: _,
        } => text_of_number(alloc, how, 0),
        Value::Indeterminate => text_of_number(alloc, how, 0),
    }
}

// What a program ends with, where that is an int: the value of main, and 0 where it has none.
fn end_value(value: Value) -> Option<i32>
    ensures { IfSome result (λ z. z ≡ number_in (value_of value)) }
{
    match value {
        Value::Number(number) => int_of(number),
        Value::Null => Some(0),
        Value::Pointer { home: _, leaf: _ } => Some(0),
        Value::Past {
            home: _,
            leaf: _,
            until: _,
        } => Some(0),
        Value::Indeterminate => Some(0),
    }
}

fn int_of(number: i128) -> Option<i32>
    ensures { IfSome result (λ z. z ≡ number) }
{
    if number < -2_147_483_648 || number > 2_147_483_647 {
        None
    } else {
        Some(number as i32)
    }
}

// The value that a call gave goes to a variable of the caller.
fn receive(store: &mut Store, into: Option<u32>, value: Value)
    ensures { store.new ≡ received_in into (value_of value) store.old }
{
    match into {
        Some(variable) => put(store, variable, value),
        None => {}
    }
}

/// Gives a variable of the innermost call a value.
pub(crate) fn put(store: &mut Store, variable: u32, value: Value)
    ensures { store.new
        ≡ with_leaf_at store.old (variable_home store.old variable) 0 (value_of value) }
{
    store.set_variable(variable, value);
}

// Where a variable of the innermost call lives.
fn variable_home(store: &Store, variable: u32) -> Home
    ensures { home_of result ≡ variable_home store.now variable }
{
    Home::Call {
        call: store.innermost(),
        variable,
    }
}

impl Run {
    /// What an effect of the command at `next` leads to.
    pub(crate) fn take(&mut self, effect: Effect) -> Result<AStep, AllocError>
        requires running { self.old.phase ≡ Phase.Running }
        requires place { self.old.frame.next + 1 < 2 ^ 64 }
        ensures led { Led self.old self.new effect result }
    {
        match effect {
            Effect::On => self.on(),
            Effect::Become(variable, value) => self.give_value(variable, value),
            Effect::Forget(variable) => self.forget(variable),
            Effect::Show(how, variable, value) => self.show(how, variable, value),
            Effect::Go(place) => self.go(place),
            Effect::Count => self.count(),
            Effect::Reach => self.reach(),
            Effect::Give(value) => self.give_back(value),
            Effect::Meet(act) => Ok(AStep::Act { act }),
        }
    }

    /// Goes on behind the command.
    pub(crate) fn on(&mut self) -> Result<AStep, AllocError>
        requires running { self.old.phase ≡ Phase.Running }
        requires place { self.old.frame.next + 1 < 2 ^ 64 }
        ensures led { Led self.old self.new Effect.On result }
    {
        self.frame.next += 1;
        Ok(AStep::Went)
    }

    /// A variable becomes a number.
    #[inline(always)]
    pub(crate) fn give_number(&mut self, variable: u32, number: i128) -> Result<AStep, AllocError>
        requires running { self.old.phase ≡ Phase.Running }
        requires place { self.old.frame.next + 1 < 2 ^ 64 }
        ensures led { Led self.old self.new (Effect.Become variable (Value.Number number)) result }
    {
        self.give_value(variable, Value::Number(number))
    }

    #[inline(always)]
    fn give_value(&mut self, variable: u32, value: Value) -> Result<AStep, AllocError>
        requires running { self.old.phase ≡ Phase.Running }
        requires place { self.old.frame.next + 1 < 2 ^ 64 }
        ensures led { Led self.old self.new (Effect.Become variable value) result }
    {
        put(&mut self.store, variable, value);
        self.frame.next += 1;
        Ok(AStep::Went)
    }

    fn forget(&mut self, variable: u32) -> Result<AStep, AllocError>
        requires running { self.old.phase ≡ Phase.Running }
        requires place { self.old.frame.next + 1 < 2 ^ 64 }
        ensures led { Led self.old self.new (Effect.Forget variable) result }
    {
        let home = variable_home(&self.store, variable);
        self.store.forget(home);
        self.frame.next += 1;
        Ok(AStep::Went)
    }

    /// Goes on at a place.
    #[inline(always)]
    pub(crate) fn go(&mut self, place: usize) -> Result<AStep, AllocError>
        requires running { self.old.phase ≡ Phase.Running }
        ensures led { Led self.old self.new (Effect.Go place) result }
    {
        self.frame.next = place;
        Ok(AStep::Went)
    }

    /// Counts a turn. One past 2^64 - 1 can't be counted.
    pub(crate) fn count(&mut self) -> Result<AStep, AllocError>
        requires running { self.old.phase ≡ Phase.Running }
        requires place { self.old.frame.next + 1 < 2 ^ 64 }
        ensures led { Led self.old self.new Effect.Count result }
    {
        if self.turns == u64::MAX {
            return Err(AllocError);
        }
        self.turns += 1;
        self.frame.next += 1;
        Ok(AStep::Went)
    }

    /// A checkpoint is reached.
    pub(crate) fn reach(&mut self) -> Result<AStep, AllocError>
        requires running { self.old.phase ≡ Phase.Running }
        requires place { self.old.frame.next + 1 < 2 ^ 64 }
        ensures led { Led self.old self.new Effect.Reach result }
    {
        match self.store.reach_checkpoint() {
            Ok(()) => {
                self.frame.next += 1;
                Ok(AStep::Went)
            }
            Err(error) => Err(error),
        }
    }

    #[inline(never)]
    fn show(&mut self, how: Display, variable: u32, value: Value) -> Result<AStep, AllocError>
        requires running { self.old.phase ≡ Phase.Running }
        requires place { self.old.frame.next + 1 < 2 ^ 64 }
        ensures led { Led self.old self.new (Effect.Show how variable value) result }
    {
        let text = text_of_value(*self.output.allocator(), how, value)?;
        self.show_text(variable, &text)
    }

    /// Bytes are shown, and a variable becomes their number.
    pub(crate) fn show_text(&mut self, variable: u32, text: &[u8]) -> Result<AStep, AllocError>
        requires running { self.old.phase ≡ Phase.Running }
        requires place { self.old.frame.next + 1 < 2 ^ 64 }
        ensures shown { (flat : Flat) (under : Environment)
            → Answers (shown_by flat under self.old variable text.now)
            (state_of self.old) (state_of self.new) result }
    {
        self.output.extend_from_slice(text)?;
        put(&mut self.store, variable, Value::Number(text.len() as i128));
        self.frame.next += 1;
        Ok(AStep::Went)
    }

    /// The frame ends with a value.
    #[inline(never)]
    pub(crate) fn give_back(&mut self, value: Value) -> Result<AStep, AllocError>
        requires running { self.old.phase ≡ Phase.Running }
        ensures led { Led self.old self.new (Effect.Give value) result }
    {
        if self.callers.is_empty() {
            self.end(value)
        } else {
            self.go_back(value)
        }
    }

    // The caller goes on.
    #[tactic(auto, using(crate::proofs::Frames::gave))]
    fn go_back(&mut self, value: Value) -> Result<AStep, AllocError>
        requires running { self.old.phase ≡ Phase.Running }
        requires called { 0 < length self.old.callers.items }
        ensures led { Led self.old self.new (Effect.Give value) result }
    {
        match self.callers.pop() {
            Some(caller) => {
                let into = self.frame.into;
                self.store.leave();
                receive(&mut self.store, into, value);
                self.frame = caller;
                Ok(AStep::Went)
            }
            None => unreachable!(),
        }
    }

    // The outermost frame ends. Answers `AllocError` where its value isn't an int.
    #[tactic(auto, using(crate::proofs::Frames::ended_last))]
    fn end(&mut self, value: Value) -> Result<AStep, AllocError>
        requires running { self.old.phase ≡ Phase.Running }
        requires outermost { self.old.callers.items ≡ [] }
        ensures led { Led self.old self.new (Effect.Give value) result }
    {
        match end_value(value) {
            Some(value) => {
                self.store.leave();
                self.phase = Phase::Over;
                Ok(AStep::Ended { value })
            }
            None => Err(AllocError),
        }
    }
}
