//! Where the SAVED of each call number of a function stands, so that no frame needs a search.

ghost use Rattle.std.specs.Prelude.{◌≡◌, ℕ, slice_get, Option, Some, IfOk};
ghost use Rattle.porch_flat.specs.whole.Form.{form_of};
ghost use Rattle.porch_flat.specs.whole.Places.{is_number};
ghost use Rattle.porch_ucf.specs.RowFlaws.{kept_number};
ghost use Rattle.porch_ucf.specs.inside.SavedPlaces.{AreNumberPlaces, AreSavedPlaces};
ghost use Rattle.porch_ucf.specs.inside.SavedPlaces.{or_else, places_at, place_of_number};

use porch_flat::whole::{Command, Flat, Form, form_of_command};
use std::alloc::{AllocError, Global};

/// Where the SAVED of each call number stands, for each function.
pub(crate) fn saved_places(
    alloc: Global,
    program: &Flat,
) -> Result<Vec<Vec<Option<usize>>>, AllocError>
    ensures { IfOk result (λ saved. AreSavedPlaces program.now saved.items) }
{
    let mut saved = Vec::with_capacity(alloc, program.functions.len())?;
    for function in program.functions.as_slice() {
        let places = number_places(alloc, function.commands.as_slice())?;
        saved.push(places)?;
    }
    Ok(saved)
}

/// The same of one function, for the numbers below that of its commands.
fn number_places(alloc: Global, commands: &[Command]) -> Result<Vec<Option<usize>>, AllocError>
    ensures { IfOk result (λ places. AreNumberPlaces commands.now places.items) }
{
    let len = commands.len();
    let mut places = vec![in alloc; None; len]?;
    for at in 0..len {
        note(&mut places, &commands[at], at);
    }
    Ok(places)
}

/// Notes where a SAVED stands, where none before it keeps its number.
fn note(places: &mut Vec<Option<usize>>, command: &Command, at: usize)
    ensures { (k : ℕ) (place : Option ℕ) → slice_get places.new.items k ≡ Some place
        → (before : Option ℕ) × (slice_get places.old.items k ≡ Some before)
        × (place ≡ or_else before (is_number k (kept_number (form_of command.now))) at) }
{
    if let Some(kept) = kept_number(command) {
        let number = kept as usize;
        if number < places.len() && places[number].is_none() {
            places[number] = Some(at);
        }
    }
}

/// The places of a function's numbers, none where there is no such function.
pub(crate) fn places_of(saved: &[Vec<Option<usize>>], function: u32) -> &[Option<usize>]
    ensures { result.now ≡ places_at saved.now function }
{
    if (function as usize) < saved.len() {
        saved[function as usize].as_slice()
    } else {
        &[]
    }
}

/// Where the SAVED stands that keeps a call number.
pub(crate) fn saved_place(
    commands: &[Command],
    places: &[Option<usize>],
    number: u32,
) -> Option<usize>
    requires { AreNumberPlaces commands.now places.now }
    ensures { result ≡ place_of_number commands.now number }
{
    if (number as usize) < places.len() {
        places[number as usize]
    } else {
        commands
            .iter()
            .position(|command| keeps_number(command, number))
    }
}

fn keeps_number(command: &Command, number: u32) -> bool
    ensures { result ≡ is_number number (kept_number (form_of command.now)) }
{
    match kept_number(command) {
        Some(kept) => number == kept,
        None => false,
    }
}

/// The call number that a SAVED keeps.
fn kept_number(command: &Command) -> Option<u32>
    ensures { result ≡ kept_number (form_of command.now) }
{
    match form_of_command(command) {
        Form::Saved(kept, _) => Some(kept),
        Form::Move(_, _)
        | Form::Cast(_, _)
        | Form::Operator(_, _, _, _)
        | Form::Complement(_, _)
        | Form::Comparison(_, _, _, _)
        | Form::Subobject(_, _, _)
        | Form::Step(_, _, _, _)
        | Form::Difference(_, _, _)
        | Form::Load(_, _)
        | Form::Store(_, _)
        | Form::Copy(_, _)
        | Form::Kill(_)
        | Form::Allocate(_, _, _)
        | Form::Free(_)
        | Form::Show(_, _, _)
        | Form::Text(_, _)
        | Form::Label(_)
        | Form::Jump(_)
        | Form::Branch(_, _)
        | Form::Turn
        | Form::Call(_, _, _)
        | Form::Return(_)
        | Form::Checkpoint
        | Form::Restore(_)
        | Form::Table(_, _)
        | Form::Push(_) => None,
    }
}
