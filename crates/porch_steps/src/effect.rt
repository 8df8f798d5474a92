//! What a command leads to, before it is done.

ghost use Rattle.std.specs.Prelude.{◌≡◌, List, pos, if◌then◌else◌};
ghost use Rattle.std.specs.Ordering.{int_eq};
ghost use Rattle.porch_flat.specs.declared.whole.Flat.{Flat};
ghost use Rattle.porch_objects.specs.Meaning.{Environment};
ghost use Rattle.porch_objects.specs.Store.{number};
ghost use Rattle.porch_abstract.specs.Machine.{Frame, State, determined, counted, resulted, returned, Goes};
ghost use Rattle.porch_abstract.specs.whole.Machine.{becomes, onward, shows, text_of, going_to, if_ok, int_of};
ghost use Rattle.porch_live.specs.Answers.{value_in};
ghost use Rattle.porch_live.specs.Views.{value_of};
ghost use Rattle.porch_steps.specs.inside.Effects.{effected};

use porch_flat::whole::Display;
use porch_live::Value;
use porch_values::Act;

/// What a command leads to.
#[derive(Clone, Copy, Debug)]
pub(crate) enum Effect {
    /// Goes on behind the command.
    On,
    /// A variable becomes a value.
    Become(u32, Value),
    /// All leaves of a variable become indeterminate.
    Forget(u32),
    /// A value that is a number is shown, and a variable becomes the number of bytes.
    Show(Display, u32, Value),
    /// Goes on at a place.
    Go(usize),
    /// Counts a turn.
    Count,
    /// A checkpoint is reached.
    Reach,
    /// The frame ends with a value.
    Give(Value),
    /// Meets an undefined act.
    Meet(Act),
}

/// A variable becomes a value that has to be there.
pub(crate) fn become_determined(variable: u32, value: Value) -> Effect
    ensures { (flat : Flat) (under : Environment) (frame : Frame) (callers : List Frame) (s : State)
        → effected flat under frame callers result s
        ≡ determined (value_of value) (λ x. becomes flat under frame callers variable s x) }
{
    match value {
        Value::Number(_) => Effect::Become(variable, value),
        Value::Null => Effect::Become(variable, value),
        Value::Pointer { home: _, leaf: _ } => Effect::Become(variable, value),
        Value::Past {
            home: _,
            leaf: _,
            until: _,
        } => Effect::Become(variable, value),
        Value::Indeterminate => Effect::Meet(Act::Indeterminate),
    }
}

/// The frame ends with a value that has to be there.
pub(crate) fn give_determined(value: Value) -> Effect
    ensures { (flat : Flat) (under : Environment) (frame : Frame) (callers : List Frame) (s : State)
        → effected flat under frame callers result s
        ≡ determined (value_of value) (λ x. returned frame callers x s) }
{
    match value {
        Value::Number(_) => Effect::Give(value),
        Value::Null => Effect::Give(value),
        Value::Pointer { home: _, leaf: _ } => Effect::Give(value),
        Value::Past {
            home: _,
            leaf: _,
            until: _,
        } => Effect::Give(value),
        Value::Indeterminate => Effect::Meet(Act::Indeterminate),
    }
}

/// A number is shown.
pub(crate) fn show_counted(how: Display, variable: u32, value: Value) -> Effect
    ensures { (flat : Flat) (under : Environment) (frame : Frame) (callers : List Frame) (s : State)
        → effected flat under frame callers result s
        ≡ counted (value_of value)
        (λ z. shows flat under frame callers variable s (text_of how z)) }
{
    match value {
        Value::Number(_) => Effect::Show(how, variable, value),
        Value::Null => Effect::Meet(Act::Indeterminate),
        Value::Pointer { home: _, leaf: _ } => Effect::Meet(Act::Indeterminate),
        Value::Past {
            home: _,
            leaf: _,
            until: _,
        } => Effect::Meet(Act::Indeterminate),
        Value::Indeterminate => Effect::Meet(Act::Indeterminate),
    }
}

/// Goes on at a place where a number isn't 0.
pub(crate) fn branch_counted(value: Value, place: usize) -> Effect
    ensures { (flat : Flat) (under : Environment) (frame : Frame) (callers : List Frame) (s : State)
        → effected flat under frame callers result s
        ≡ counted (value_of value) (λ z. if int_eq z (pos 0) then onward flat under frame callers s
        else Goes (going_to flat under frame callers place s)) }
{
    match value {
        Value::Number(number) => {
            if number == 0 {
                Effect::On
            } else {
                Effect::Go(place)
            }
        }
        Value::Null => Effect::Meet(Act::Indeterminate),
        Value::Pointer { home: _, leaf: _ } => Effect::Meet(Act::Indeterminate),
        Value::Past {
            home: _,
            leaf: _,
            until: _,
        } => Effect::Meet(Act::Indeterminate),
        Value::Indeterminate => Effect::Meet(Act::Indeterminate),
    }
}

/// A variable becomes a result, or there is an act.
pub(crate) fn become_result(variable: u32, result_is: Result<i128, Act>) -> Effect
    ensures { (flat : Flat) (under : Environment) (frame : Frame) (callers : List Frame) (s : State)
        → effected flat under frame callers result s
        ≡ resulted result_is (λ z. becomes flat under frame callers variable s (number z)) }
{
    match result_is {
        Ok(value) => Effect::Become(variable, Value::Number(value)),
        Err(act) => Effect::Meet(act),
    }
}

/// A variable becomes a value, or there is an act.
pub(crate) fn become_value(variable: u32, answer: Result<Value, Act>) -> Effect
    ensures { (flat : Flat) (under : Environment) (frame : Frame) (callers : List Frame) (s : State)
        → effected flat under frame callers result s
        ≡ if_ok (value_in answer) (λ x. becomes flat under frame callers variable s x) }
{
    match answer {
        Ok(value) => Effect::Become(variable, value),
        Err(act) => Effect::Meet(act),
    }
}

/// A variable becomes 1 or 0, or there is an act.
pub(crate) fn become_truth(variable: u32, answer: Result<bool, Act>) -> Effect
    ensures { (flat : Flat) (under : Environment) (frame : Frame) (callers : List Frame) (s : State)
        → effected flat under frame callers result s
        ≡ if_ok answer (λ holds. becomes flat under frame callers variable s (int_of holds)) }
{
    match answer {
        Ok(true) => Effect::Become(variable, Value::Number(1)),
        Ok(false) => Effect::Become(variable, Value::Number(0)),
        Err(act) => Effect::Meet(act),
    }
}

/// A variable becomes a number, or there is an act.
pub(crate) fn become_number(variable: u32, answer: Result<i128, Act>) -> Effect
    ensures { (flat : Flat) (under : Environment) (frame : Frame) (callers : List Frame) (s : State)
        → effected flat under frame callers result s
        ≡ if_ok answer (λ z. becomes flat under frame callers variable s (number z)) }
{
    match answer {
        Ok(value) => Effect::Become(variable, Value::Number(value)),
        Err(act) => Effect::Meet(act),
    }
}
