//! The rewritten program, function by function.

ghost use Rattle.std.specs.Prelude.{◌≡◌, ◌<◌, ◌≤◌, ◌↔◌, ◌+◌, ◌++◌, ◌^◌, ℕ, IsTrue, IfOk, OnOk, count_by, reverse, length, slice_get, slice_index_or, false};
ghost use Rattle.std.specs.List.{All, list_all, range_with_len};
ghost use Rattle.porch_flat.specs.whole.Rewritten.{reaches};
ghost use Rattle.porch_flat.specs.whole.Form.{form_of};
ghost use Rattle.porch_flat.specs.whole.Places.{vars_of};
ghost use Rattle.porch_rewrite.specs.Laws.{HasFew, HasRoom, takes_label};
ghost use Rattle.porch_rewrite.specs.Rewriting as rewriting;
ghost use Rattle.porch_rewrite.specs.Rewriting.{FIRST_LABEL};
ghost use Rattle.porch_rewrite.specs.inside.Marked.{marked, saving_of, IsFew};
ghost use Rattle.porch_rewrite.specs.inside.Room.{is_below, leaves_room};

use crate::laws::{rewriting_keeps_the_rules, variables_have_numbers};
use porch_flat::whole::{Command, Flat, Function, Plain, Valid, reaching};
use sqlite_items::Items;
use std::alloc::{AllocError, Global};

/// The labels that are added begin here.
const FIRST_LABEL: u32 = 1 << 30;

/// The program as one that saves and rebuilds its frames (`specs/Rewriting`), which `rewriting_keeps_the_meaning` says means
/// the same. Each label has to be below 2^30, and in each function LABEL, CALL and CHECKPOINT commands fewer than that;
/// `has_room` tells. Its time is linear in the commands.
pub fn rewrite(alloc: Global, plain: Plain) -> Result<Valid, AllocError>
    requires room { HasRoom plain }
    requires few { HasFew plain }
    ensures { IfOk result (λ made. made ≡ rewriting.rewritten plain) }
{
    rewriting_keeps_the_rules();
    variables_have_numbers();
    let made = rewrite_flat(alloc, plain.into_flat())?;
    Ok(Valid::from_valid(made))
}

/// Whether the labels of a program, and the commands that take one, leave room for those that `rewrite` adds. It takes no
/// memory.
pub fn has_room(flat: &Flat) -> bool
    ensures { IsTrue result ↔ (HasRoom flat.now × HasFew flat.now) }
{
    all_leave_room(flat.functions.as_slice())
}

fn all_leave_room(functions: &[Function]) -> bool
    ensures { result ≡ list_all (λ f. leaves_room f.commands) functions.now }
{
    functions
        .iter()
        .all(|function| leaves_room(function.commands.as_slice()))
}

// In one function.
fn leaves_room(commands: &[Command]) -> bool
    ensures { result ≡ leaves_room commands.now }
{
    let below = all_below(commands);
    let taken = labels_taken(commands);
    below && taken < FIRST_LABEL as usize
}

fn all_below(commands: &[Command]) -> bool
    ensures { result ≡ list_all (λ c. is_below (form_of c)) commands.now }
{
    commands.iter().all(|command| is_below(command))
}

fn labels_taken(commands: &[Command]) -> usize
    ensures value { result ≡ count_by (λ c. takes_label (form_of c)) commands.now }
    ensures few { result ≤ length commands.now }
{
    let mut count = 0;
    for command in commands {
        if takes_label(command) {
            count += 1;
        }
    }
    count
}

// Whether the label that a command names lies below those that are added.
fn is_below(command: &Command) -> bool
    ensures { result ≡ is_below (form_of command.now) }
{
    match command {
        Command::Label(n) | Command::Jump(n) | Command::If(_, n) => *n < FIRST_LABEL,
        _ => true,
    }
}

fn takes_label(command: &Command) -> bool
    ensures { result ≡ takes_label (form_of command.now) }
{
    matches!(
        command,
        Command::Label(_) | Command::Call(_, _, _) | Command::Checkpoint
    )
}

// The program with the commands that save and rebuild frames, in each function that reaches a checkpoint.
fn rewrite_flat(alloc: Global, flat: Flat) -> Result<Flat, AllocError>
    requires few { HasFew flat }
    requires variables { (f : ℕ) → length (vars_of (slice_get flat.functions f)) ≤ 2 ^ 31 }
    ensures { IfOk result (λ made. made ≡ rewriting.rewritten flat) }
{
    let reached = reaching(alloc, &flat)?;
    let Flat {
        types,
        globals,
        functions,
    } = flat;
    let functions = rewrite_functions(alloc, &reached[..], functions)?;
    Ok(Flat {
        types,
        globals,
        functions,
    })
}

// Whether a checkpoint may be reached at a command.
fn has_number(reached: &[bool], command: &Command) -> bool
    ensures { result ≡ rewriting.has_number (marked reached.now) command.now }
{
    match command {
        Command::Call(_, function, _) => is_marked(reached, *function as usize),
        Command::Checkpoint => true,
        _ => false,
    }
}

fn is_marked(reached: &[bool], function: usize) -> bool
    ensures { result ≡ marked reached.now function }
{
    match reached.get(function) {
        Some(reaches) => *reaches,
        None => false,
    }
}

fn rewrite_functions(
    alloc: Global,
    reached: &[bool],
    functions: Items<Function>,
) -> Result<Items<Function>, AllocError>
    requires { All (IsFew (marked reached.now)) functions }
    ensures { IfOk result
        (λ made. made ≡ rewriting.rewritten_functions (marked reached.now) 0 functions) }
{
    let mut turned = reverse_of(alloc, functions)?;
    let mut made = Items::new(alloc);
    while let Some(function) = turned.pop() {
        let number = made.len();
        made.push(rewrite_function(alloc, reached, number, function)?)?;
    }
    Ok(made)
}

// The last comes first.
fn reverse_of<T: Drop>(alloc: Global, items: Items<T>) -> Result<Items<T>, AllocError>
    ensures { IfOk result (λ turned. turned ≡ reverse items) }
{
    let mut items = items;
    let mut turned = Items::new(alloc);
    while let Some(item) = items.pop() {
        turned.push(item)?;
    }
    Ok(turned)
}

fn rewrite_function(
    alloc: Global,
    reached: &[bool],
    number: usize,
    function: Function,
) -> Result<Function, AllocError>
    requires { IsFew (marked reached.now) function }
    ensures { IfOk result
        (λ made. made ≡ rewriting.rewritten_function (marked reached.now) number function) }
{
    if !is_marked(reached, number) {
        return Ok(function);
    }
    let Function {
        name,
        result,
        params,
        vars,
        commands,
    } = function;
    let commands = saving_commands(alloc, reached, vars.len(), commands)?;
    Ok(Function {
        name,
        result,
        params,
        vars,
        commands,
    })
}

// The commands of a function with so many variables, and those that are added.
fn saving_commands(
    alloc: Global,
    reached: &[bool],
    variables: usize,
    commands: Items<Command>,
) -> Result<Items<Command>, AllocError>
    requires numbers { rewriting.numbers_in (marked reached.now) commands < FIRST_LABEL }
    requires variables { variables ≤ 2 ^ 31 }
    ensures { IfOk result (λ made. made ≡ saving_of (marked reached.now) variables commands) }
{
    let count = numbers_in(reached, commands.as_slice());
    let out = FIRST_LABEL + count as u32;
    let mut made = Items::new(alloc);
    made.push(Command::Restore(every_variable(alloc, variables)?))?;
    push_tables(&mut made, count)?;
    push_marked(alloc, &mut made, reached, out, commands)?;
    made.push(Command::Label(out))?;
    made.push(Command::Push(every_variable(alloc, variables)?))?;
    Ok(made)
}

fn numbers_in(reached: &[bool], commands: &[Command]) -> usize
    ensures value { result ≡ rewriting.numbers_in (marked reached.now) commands.now }
    ensures few { result ≤ length commands.now }
{
    let mut count = 0;
    for command in commands {
        if has_number(reached, command) {
            count += 1;
        }
    }
    count
}

fn every_variable(alloc: Global, variables: usize) -> Result<Items<u32>, AllocError>
    requires { variables ≤ 2 ^ 31 }
    ensures { IfOk result (λ all. all ≡ range_with_len 0 variables) }
{
    let mut all = Items::new(alloc);
    for variable in 0..variables {
        all.push(variable as u32)?;
    }
    Ok(all)
}

fn push_tables(made: &mut Items<Command>, count: usize) -> Result<(), AllocError>
    requires { count < FIRST_LABEL }
    ensures { OnOk result (made.new ≡ made.old ++ rewriting.tables 0 count) }
{
    for before in 0..count {
        let before = before as u32;
        made.push(Command::Table(before + 1, FIRST_LABEL + before))?;
    }
    Ok(())
}

// The function's own commands, each call number's between its label and the way out.
fn push_marked(
    alloc: Global,
    made: &mut Items<Command>,
    reached: &[bool],
    out: u32,
    commands: Items<Command>,
) -> Result<(), AllocError>
    requires { rewriting.numbers_in (marked reached.now) commands < FIRST_LABEL }
    ensures { OnOk result (made.new
        ≡ made.old ++ rewriting.all_with_marks (marked reached.now) out 0 commands) }
{
    let mut turned = reverse_of(alloc, commands)?;
    let mut before = 0;
    while let Some(command) = turned.pop() {
        if has_number(reached, &command) {
            made.push(Command::Label(FIRST_LABEL + before))?;
            made.push(command)?;
            before += 1;
            made.push(Command::Saved(before, out))?;
        } else {
            made.push(command)?;
        }
    }
    Ok(())
}
