//! Which functions reach a checkpoint.

ghost use Rattle.std.specs.Prelude.{◌≡◌, ℕ, IfOk, OnOk, length, replicate, get_or, slice_index_or, slice_get, [], false};
ghost use Rattle.std.specs.List.{list_any};
ghost use Rattle.porch_flat.specs.declared.whole.Flat.{Flat};
ghost use Rattle.porch_flat.specs.whole.Calls.{IsLeastClosed};
ghost use Rattle.porch_flat.specs.whole.Rewritten.{reaches};
ghost use Rattle.porch_flat.specs.inside.CallGraph.{noted, all_noted, callers_in, Reached, marked, all_marked, holds, begun, started, gone_on, gone_through, reached, with_caller};

use crate::whole::{Command, Flat, Function};
use std::alloc::{AllocError, Global};
use std::marker::Model;

/// For each function of a program whether it reaches a checkpoint: the least set of functions that hold CHECKPOINT or call one
/// of the set. Its time is linear in the commands.
pub fn reaching(alloc: Global, flat: &Flat) -> Result<Vec<bool>, AllocError>
    ensures length { IfOk result (λ v. length v.items ≡ length flat.now.functions) }
    ensures least { IfOk result (λ v. IsLeastClosed flat.now
        (λ f. slice_index_or v.items f false)) }
    ensures same { IfOk result (λ v. (f : ℕ)
        → slice_index_or v.items f false ≡ reaches flat.now f) }
{
    let functions = flat.functions.as_slice();
    let callers = Callers::new(alloc, functions)?;
    let mut search = Search::new(alloc, functions)?;
    for step in 0..functions.len() {
        search.go_on(&callers, step)?;
    }
    let Search { marks, order: _ } = search;
    Ok(marks)
}

/// What reaches a checkpoint by calls is the least set of functions that hold CHECKPOINT or call one of the set.
pub fn reaching_is_least()
    ensures { (flat : Flat) → IsLeastClosed flat (reaches flat) }
{}

// What was reached so far.
#[derive(Drop)]
struct Search {
    marks: Vec<bool>,
    // The functions that were reached, in the order in which they were.
    order: Vec<usize>,
}

impl Model for Search {
    ghost use Rattle.porch_flat.specs.inside.CallGraph.{Reached};

    ghost Value = { Reached };

    ghost view = { λ s. record { marks = s.marks.items; order = s.order.items } };
}

impl Search {
    // Begins with the functions that hold CHECKPOINT.
    fn new(alloc: Global, functions: &[Function]) -> Result<Search, AllocError>
        ensures { IfOk result (λ s. s ≡ started functions.now) }
    {
        let mut marks = Vec::new(alloc);
        for _ in functions.iter() {
            marks.push(false)?;
        }
        let mut search = Search {
            marks,
            order: Vec::new(alloc),
        };
        for (f, function) in functions.iter().enumerate() {
            if holds_checkpoint(function) {
                search.mark(f)?;
            }
        }
        Ok(search)
    }

    fn mark(&mut self, f: usize) -> Result<(), AllocError>
        ensures { OnOk result (self.new ≡ marked f self.old) }
    {
        if let Some(false) = self.marks.get(f).copied() {
            self.order.push(f)?;
            self.marks[f] = true;
        }
        Ok(())
    }

    fn mark_all(&mut self, fs: &[usize]) -> Result<(), AllocError>
        ensures { OnOk result (self.new ≡ all_marked fs.now self.old) }
    {
        for f in fs.iter() {
            self.mark(*f)?;
        }
        Ok(())
    }

    // Marks the callers of the function that was reached so many steps ago.
    fn go_on(&mut self, callers: &Callers, step: usize) -> Result<(), AllocError>
        ensures { OnOk result
            (self.new ≡ gone_on callers.now (slice_get self.old.order step) self.old) }
    {
        if let Some(g) = self.order.get(step).copied() {
            self.mark_all(callers.of(g))?;
        }
        Ok(())
    }
}

fn holds_checkpoint(function: &Function) -> bool
    ensures { result ≡ holds function.now }
{
    function
        .commands
        .as_slice()
        .iter()
        .any(|command| matches!(command, Command::Checkpoint))
}

// For each function the functions that call it, once for each CALL.
#[derive(Drop)]
struct Callers {
    lists: Vec<Vec<usize>>,
}

impl Model for Callers {
    ghost use Rattle.std.specs.Prelude.{List, ℕ, map};

    ghost Value = { List (List ℕ) };

    ghost view = { λ c. map (λ fs. fs.items) c.lists.items };
}

impl Callers {
    fn new(alloc: Global, functions: &[Function]) -> Result<Callers, AllocError>
        ensures { IfOk result (λ callers. callers ≡ callers_in functions.now) }
    {
        let mut callers = Callers::none(alloc, functions.len())?;
        for (f, function) in functions.iter().enumerate() {
            callers.note(f, function.commands.as_slice())?;
        }
        Ok(callers)
    }

    fn none(alloc: Global, count: usize) -> Result<Callers, AllocError>
        ensures { IfOk result (λ callers. callers ≡ replicate count []) }
    {
        let mut lists = Vec::new(alloc);
        for _ in 0..count {
            lists.push(Vec::new(alloc))?;
        }
        Ok(Callers { lists })
    }

    fn note(&mut self, f: usize, commands: &[Command]) -> Result<(), AllocError>
        ensures { OnOk result (self.new ≡ noted f commands.now self.old) }
    {
        for command in commands.iter() {
            if let Command::Call(_, g, _) = command {
                self.put(*g as usize, f)?;
            }
        }
        Ok(())
    }

    fn put(&mut self, g: usize, f: usize) -> Result<(), AllocError>
        ensures { OnOk result (self.new ≡ with_caller f g self.old) }
    {
        if g < self.lists.len() {
            self.lists[g].push(f)?;
        }
        Ok(())
    }

    fn of(&self, g: usize) -> &[usize]
        ensures { result.now ≡ get_or self.now g [] }
    {
        match self.lists.get(g) {
            Some(fs) => fs.as_slice(),
            None => &[],
        }
    }
}
