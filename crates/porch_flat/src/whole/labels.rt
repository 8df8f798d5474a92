//! Where the labels of a function of the whole flat text stand.

ghost use Rattle.std.specs.Prelude.{◌≡◌, ◌==◌, ℕ, IfOk, OnOk};
ghost use Rattle.porch_flat.specs.Labelled.{place_in};
ghost use Rattle.porch_flat.specs.whole.Form.{form_of, label_of};
ghost use Rattle.porch_flat.specs.whole.Places.{is_number, place_of_label};
ghost use Rattle.porch_flat.specs.inside.FirstPlaces.{first_place};

use crate::whole::Command;
use crate::whole::form::label_of_command;
use indexmap::IndexMap;
use std::alloc::{AllocError, Global};
use std::marker::Model;

/// The place of the first label of each number, in a list of commands. It is found in a time that doesn't
/// depend on the number of commands.
#[derive(Drop)]
pub struct Labels {
    places: IndexMap<u32, usize>,
}

impl Model for Labels {
    ghost use Rattle.std.specs.Prelude.{List, ℕ};

    ghost Value = { List (ℕ × ℕ) };

    ghost view = { λ l. l.places.entries };
}

impl Labels {
    /// The places of the labels in a list of commands.
    pub fn new(alloc: Global, commands: &[Command]) -> Result<Labels, AllocError>
        ensures { IfOk result (λ labels. (n : ℕ)
            → place_in labels n ≡ place_of_label commands.now n) }
    {
        let mut places = IndexMap::new(alloc);
        for (at, command) in commands.iter().enumerate() {
            note(&mut places, at, command)?;
        }
        Ok(Labels { places })
    }

    /// The place of the label of a number, if there is one. It takes no memory.
    pub fn place(&self, number: u32) -> Option<usize>
        ensures { result ≡ place_in self.now number }
    {
        self.places.get(&number).copied()
    }
}

// Takes note of a label, unless its number stood before.
fn note(places: &mut IndexMap<u32, usize>, at: usize, command: &Command) -> Result<(), AllocError>
    ensures { OnOk result ((n : ℕ)
        → place_in places.new.entries n ≡ first_place (place_in places.old.entries n)
        (is_number n (label_of (form_of command.now))) at) }
{
    match label_of_command(command) {
        Some(number) => put(places, number, at),
        None => Ok(()),
    }
}

fn put(places: &mut IndexMap<u32, usize>, number: u32, at: usize) -> Result<(), AllocError>
    ensures { OnOk result ((n : ℕ)
        → place_in places.new.entries n ≡ first_place (place_in places.old.entries n) (n == number)
        at) }
{
    if !places.contains_key(&number) {
        places.insert(number, at)?;
    }
    Ok(())
}
