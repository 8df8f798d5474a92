//! The rule Modes of a function. No call takes memory.

ghost use Rattle.std.specs.Prelude.{◌≡◌, ◌==◌, ◌+◌, ◌*◌, ◌&&◌, count_by, length, map, option_and_then, slice_get, IsTrue, ◌↔◌, ℕ, ◌-◌, ◌≤◌, ◌<◌, if◌then◌else◌, Some, None};
ghost use Rattle.std.specs.List.{range_with_len};
ghost use Rattle.porch_flat.specs.declared.whole.Sort.TheVariants as sort;
ghost use Rattle.porch_flat.specs.whole.Form.{form_of, is_mode, label_of};
ghost use Rattle.porch_flat.specs.whole.Rewritten.{has_ends, is_marked, is_plain, is_rewritten, last_label, leads_to_checkpoint, passes, pushes, restores, same_number, same_numbers, saved_label, table_label};
ghost use Rattle.porch_flat.specs.whole.Rules.{has_modes};
ghost use Rattle.porch_flat.specs.inside.Walks.{AreReaching, IsMarkedCount, reach_of};

use crate::whole::form::{Form, form_of_command, is_mode_command, label_of_command};
use crate::whole::types::same_number;
use crate::whole::{Command, Flat, Function, Sort};

/// Whether a function holds the commands for saving and rebuilding frames that it has to, and no others.
pub(crate) fn has_modes(sort: Sort, flat: &Flat, f: &Function, reaching: &[bool]) -> bool
    requires { AreReaching sort flat.now reaching.now }
    ensures { result ≡ has_modes sort flat.now f.now }
{
    match sort {
        Sort::Plain => is_plain(f),
        Sort::Rewritten => is_rewritten(flat, f, reaching),
    }
}

/// Whether no command of a function is for saving and rebuilding frames.
#[tactic(auto, using(crate::proofs::Modes::count_forms))]
fn is_plain(f: &Function) -> bool
    ensures { result ≡ is_plain f.now }
{
    count_modes(f.commands.as_slice()) == 0
}

fn count_modes(commands: &[Command]) -> usize
    ensures value { result ≡ count_by (λ c. is_mode (form_of c)) commands.now }
    ensures few { result ≤ length commands.now }
{
    let mut count = 0;
    for command in commands {
        if is_mode_command(command) {
            count += 1;
        }
    }
    count
}

fn is_kept(reaching: &[bool], number: u32) -> bool
    ensures { result ≡ reach_of reaching.now number }
{
    match reaching.get(number as usize) {
        Some(kept) => *kept,
        None => false,
    }
}

/// Whether a checkpoint may be reached at a command, by what is kept of the functions.
pub(crate) fn leads_to_checkpoint(reaching: &[bool], command: &Command) -> bool
    ensures { result ≡ leads_to_checkpoint (reach_of reaching.now) (form_of command.now) }
{
    match form_of_command(command) {
        Form::Call(_, g, _) => is_kept(reaching, g),
        Form::Checkpoint => true,
        Form::Move(_, _)
        | Form::Cast(_, _)
        | Form::Operator(_, _, _, _)
        | Form::Complement(_, _)
        | Form::Comparison(_, _, _, _)
        | Form::Subobject(_, _, _)
        | Form::Step(_, _, _, _)
        | Form::Difference(_, _, _)
        | Form::Load(_, _)
        | Form::Store(_, _)
        | Form::Copy(_, _)
        | Form::Kill(_)
        | Form::Allocate(_, _, _)
        | Form::Free(_)
        | Form::Show(_, _, _)
        | Form::Text(_, _)
        | Form::Label(_)
        | Form::Jump(_)
        | Form::Branch(_, _)
        | Form::Turn
        | Form::Return(_)
        | Form::Restore(_)
        | Form::Table(_, _)
        | Form::Saved(_, _)
        | Form::Push(_) => false,
    }
}

// The label that stands at a place.
#[tactic(auto, using(crate::proofs::Modes::form_at))]
fn label_at(commands: &[Command], at: usize) -> Option<u32>
    ensures { result ≡ option_and_then label_of (slice_get (map form_of commands.now) at) }
{
    match commands.get(at) {
        Some(command) => label_of_command(command),
        None => None,
    }
}

// The number, where two others are the same.
fn number_where(k: usize, j: u32, n: u32) -> Option<u32>
    ensures { result ≡ (if k == j then Some n else None) }
{
    if k == j as usize { Some(n) } else { None }
}

fn table_label(command: &Command, k: usize) -> Option<u32>
    ensures { result ≡ table_label k (form_of command.now) }
{
    match form_of_command(command) {
        Form::Table(j, n) => number_where(k, j, n),
        Form::Move(_, _)
        | Form::Cast(_, _)
        | Form::Operator(_, _, _, _)
        | Form::Complement(_, _)
        | Form::Comparison(_, _, _, _)
        | Form::Subobject(_, _, _)
        | Form::Step(_, _, _, _)
        | Form::Difference(_, _, _)
        | Form::Load(_, _)
        | Form::Store(_, _)
        | Form::Copy(_, _)
        | Form::Kill(_)
        | Form::Allocate(_, _, _)
        | Form::Free(_)
        | Form::Show(_, _, _)
        | Form::Text(_, _)
        | Form::Label(_)
        | Form::Jump(_)
        | Form::Branch(_, _)
        | Form::Turn
        | Form::Call(_, _, _)
        | Form::Return(_)
        | Form::Checkpoint
        | Form::Restore(_)
        | Form::Saved(_, _)
        | Form::Push(_) => None,
    }
}

fn saved_label(command: &Command, k: usize) -> Option<u32>
    ensures { result ≡ saved_label k (form_of command.now) }
{
    match form_of_command(command) {
        Form::Saved(j, n) => number_where(k, j, n),
        Form::Move(_, _)
        | Form::Cast(_, _)
        | Form::Operator(_, _, _, _)
        | Form::Complement(_, _)
        | Form::Comparison(_, _, _, _)
        | Form::Subobject(_, _, _)
        | Form::Step(_, _, _, _)
        | Form::Difference(_, _, _)
        | Form::Load(_, _)
        | Form::Store(_, _)
        | Form::Copy(_, _)
        | Form::Kill(_)
        | Form::Allocate(_, _, _)
        | Form::Free(_)
        | Form::Show(_, _, _)
        | Form::Text(_, _)
        | Form::Label(_)
        | Form::Jump(_)
        | Form::Branch(_, _)
        | Form::Turn
        | Form::Call(_, _, _)
        | Form::Return(_)
        | Form::Checkpoint
        | Form::Restore(_)
        | Form::Table(_, _)
        | Form::Push(_) => None,
    }
}

#[tactic(auto, using(crate::proofs::Modes::form_at))]
fn table_label_at(commands: &[Command], k: usize) -> Option<u32>
    ensures { result ≡ option_and_then (table_label k) (slice_get (map form_of commands.now) k) }
{
    match commands.get(k) {
        Some(command) => table_label(command, k),
        None => None,
    }
}

#[tactic(auto, using(crate::proofs::Modes::form_at))]
fn saved_label_at(commands: &[Command], k: usize, at: usize) -> Option<u32>
    ensures { result ≡ option_and_then (saved_label k) (slice_get (map form_of commands.now) at) }
{
    match commands.get(at) {
        Some(command) => saved_label(command, k),
        None => None,
    }
}

// The label that stands last, in front of the last command.
#[tactic(auto, using(crate::proofs::Modes::last_of))]
fn last_label(commands: &[Command]) -> Option<u32>
    ensures { result ≡ last_label (map form_of commands.now) }
{
    label_at(commands, commands.len().saturating_sub(2))
}

fn is_table_of(commands: &[Command], k: usize, at: usize) -> bool
    requires { 1 ≤ at }
    ensures { result ≡ same_number
        (option_and_then (table_label k) (slice_get (map form_of commands.now) k))
        (option_and_then label_of (slice_get (map form_of commands.now) (at - 1))) }
{
    same_number(table_label_at(commands, k), label_at(commands, at - 1))
}

// Whether the call of a number, which stands at a place, has its table, its label and its end.
fn is_marked(f: &Function, k: usize, at: usize) -> bool
    requires { at < length f.now.commands }
    ensures { result ≡ is_marked (length f.now.vars) (map form_of f.now.commands) k at }
{
    let commands = f.commands.as_slice();
    1 <= at
        && is_table_of(commands, k, at)
        && same_number(saved_label_at(commands, k, at + 1), last_label(commands))
}

// How many calls have numbers, if each is marked.
#[tactic(auto, using(crate::proofs::Modes::places_in, crate::proofs::Modes::places_on, crate::proofs::Modes::form_count))]
fn count_marked(f: &Function, reaching: &[bool]) -> Option<usize>
    ensures { IsMarkedCount (length f.now.vars) (map form_of f.now.commands)
        (reach_of reaching.now) result }
{
    let mut count = 0;
    for (at, command) in f.commands.as_slice().iter().enumerate() {
        if leads_to_checkpoint(reaching, command) {
            count += 1;
            if !is_marked(f, count, at) {
                return None;
            }
        }
    }
    Some(count)
}

fn is_at(v: u32, at: usize, count: usize) -> bool
    ensures { IsTrue result ↔ ((at < count) × (v ≡ at)) }
{
    at < count && v as usize == at
}

#[tactic(auto, using(crate::proofs::Modes::order_next, crate::proofs::Modes::order_stop, crate::proofs::Modes::order_end))]
fn are_in_order(vs: &[u32], count: usize) -> bool
    ensures { result ≡ same_numbers vs.now (range_with_len 0 count) }
{
    for (at, v) in vs.iter().enumerate() {
        if !is_at(*v, at, count) {
            return false;
        }
    }
    vs.len() == count
}

fn restores(command: &Command, count: usize) -> bool
    ensures { result ≡ restores count (form_of command.now) }
{
    match form_of_command(command) {
        Form::Restore(vs) => are_in_order(vs, count),
        Form::Move(_, _)
        | Form::Cast(_, _)
        | Form::Operator(_, _, _, _)
        | Form::Complement(_, _)
        | Form::Comparison(_, _, _, _)
        | Form::Subobject(_, _, _)
        | Form::Step(_, _, _, _)
        | Form::Difference(_, _, _)
        | Form::Load(_, _)
        | Form::Store(_, _)
        | Form::Copy(_, _)
        | Form::Kill(_)
        | Form::Allocate(_, _, _)
        | Form::Free(_)
        | Form::Show(_, _, _)
        | Form::Text(_, _)
        | Form::Label(_)
        | Form::Jump(_)
        | Form::Branch(_, _)
        | Form::Turn
        | Form::Call(_, _, _)
        | Form::Return(_)
        | Form::Checkpoint
        | Form::Table(_, _)
        | Form::Saved(_, _)
        | Form::Push(_) => false,
    }
}

fn pushes(command: &Command, count: usize) -> bool
    ensures { result ≡ pushes count (form_of command.now) }
{
    match form_of_command(command) {
        Form::Push(vs) => are_in_order(vs, count),
        Form::Move(_, _)
        | Form::Cast(_, _)
        | Form::Operator(_, _, _, _)
        | Form::Complement(_, _)
        | Form::Comparison(_, _, _, _)
        | Form::Subobject(_, _, _)
        | Form::Step(_, _, _, _)
        | Form::Difference(_, _, _)
        | Form::Load(_, _)
        | Form::Store(_, _)
        | Form::Copy(_, _)
        | Form::Kill(_)
        | Form::Allocate(_, _, _)
        | Form::Free(_)
        | Form::Show(_, _, _)
        | Form::Text(_, _)
        | Form::Label(_)
        | Form::Jump(_)
        | Form::Branch(_, _)
        | Form::Turn
        | Form::Call(_, _, _)
        | Form::Return(_)
        | Form::Checkpoint
        | Form::Restore(_)
        | Form::Table(_, _)
        | Form::Saved(_, _) => false,
    }
}

#[tactic(auto, using(crate::proofs::Modes::form_at))]
fn begins_well(f: &Function) -> bool
    ensures { result ≡ passes (restores (length f.now.vars))
        (slice_get (map form_of f.now.commands) 0) }
{
    match f.commands.get(0) {
        Some(command) => restores(command, f.vars.len()),
        None => false,
    }
}

#[tactic(auto, using(crate::proofs::Modes::form_at, crate::proofs::Modes::form_count))]
fn ends_well(f: &Function) -> bool
    ensures { result ≡ passes (pushes (length f.now.vars))
        (slice_get (map form_of f.now.commands) (length (map form_of f.now.commands) - 1)) }
{
    match f.commands.get(f.commands.len().saturating_sub(1)) {
        Some(command) => pushes(command, f.vars.len()),
        None => false,
    }
}

fn has_mode_count(f: &Function, count: usize) -> bool
    requires { count ≤ length f.now.commands }
    ensures { result ≡ (count_by is_mode (map form_of f.now.commands) == 2 * count + 2) }
{
    let modes = count_modes(f.commands.as_slice());
    modes >= 2 && (modes - 2) / 2 == count && modes % 2 == 0
}

fn has_ends(f: &Function, count: usize) -> bool
    requires { count ≤ length f.now.commands }
    ensures { result ≡ has_ends (length f.now.vars) (map form_of f.now.commands) count }
{
    if count == 0 {
        is_plain(f)
    } else {
        begins_well(f) && ends_well(f) && has_mode_count(f, count)
    }
}

#[tactic(auto, using(crate::proofs::Modes::marked_by, crate::proofs::Modes::unmarked_by))]
fn is_rewritten(flat: &Flat, f: &Function, reaching: &[bool]) -> bool
    requires { AreReaching sort.Rewritten flat.now reaching.now }
    ensures { result ≡ is_rewritten flat.now f.now }
{
    match count_marked(f, reaching) {
        Some(count) => has_ends(f, count),
        None => false,
    }
}
