//! The first rule that a program breaks, found by going through its lines once.

ghost use Rattle.std.specs.Prelude.{◌≡◌, ◌+◌, ◌≤◌, ◌∷◌, [], ℕ, drop, slice_get, IfOk, IfErr, OnOk, Some, ◌<◌, length, codes};
ghost use Rattle.std.specs.Str.{bytes_eq};
ghost use Rattle.porch_flat.specs.Labelled.{place_in};
ghost use Rattle.porch_flat.specs.declared.whole.valid.ValidFault.TheVariants.{NoMemory};
ghost use Rattle.porch_flat.specs.whole.Lines.{type_lines, global_line, global_lines, init_lines, function_line, function_lines, var_lines, command_lines, lines_of};
ghost use Rattle.porch_flat.specs.whole.Places.{main_of, place_of_label};
ghost use Rattle.porch_flat.specs.whole.Rules.{MOST_GLOBAL_LEAVES, has_main, is_main_head};
ghost use Rattle.porch_flat.specs.whole.Search.{first_fault, first_rule};
ghost use Rattle.porch_flat.specs.inside.Walks.{AreReaching, Finds, IsFault, Passes, body_part, first_of, function_part, global_part, leaves_before};

use crate::flat::GlobalObject;
use crate::whole::labels::Labels;
use crate::whole::modes::has_modes;
use crate::whole::rules::{
    MOST_GLOBAL_LEAVES, command_rule, function_rule, global_rule, init_rule, type_rule, var_rule,
};
use crate::whole::types::same_number;
use crate::whole::{Flat, FlatRule, Function, Sort, ValidFault};
use porch_types::INT;
use std::alloc::Global;

// The fault of the line so many behind another. There are fewer than 2^64 lines in any memory.
fn fault_at(start: u64, at: usize, rule: FlatRule) -> ValidFault
    ensures { IsFault (Some (start + at, rule)) result }
{
    match start.checked_add(at as u64) {
        Some(line) => ValidFault::NotValid { line, rule },
        None => ValidFault::NoMemory,
    }
}

fn line_after(start: u64, count: usize) -> Result<u64, ValidFault>
    ensures ok { IfOk result (λ line. line ≡ start + count) }
    ensures err { IfErr result (λ fault. fault ≡ NoMemory) }
{
    match start.checked_add(count as u64) {
        Some(line) => Ok(line),
        None => Err(ValidFault::NoMemory),
    }
}

fn walk_types(sort: Sort, flat: &Flat) -> Result<(), ValidFault>
    ensures { Finds (first_of (first_rule sort flat.now) 3
        (type_lines 8 (drop 8 flat.now.types))) result }
{
    for number in 8..flat.types.len() {
        if let Some(rule) = type_rule(sort, flat, number, flat.types.get(number as u32)) {
            return Err(fault_at(0, number - 5, rule));
        }
    }
    Ok(())
}

#[tactic(auto, using(crate::proofs::Walked::next_init))]
fn walk_inits(
    sort: Sort,
    flat: &Flat,
    number: usize,
    g: &GlobalObject,
    start: u64,
) -> Result<(), ValidFault>
    ensures { Finds (first_of (first_rule sort flat.now) start
        (init_lines number g.now 0 g.now.inits)) result }
{
    for (at, init) in g.inits.as_slice().iter().enumerate() {
        if let Some(rule) = init_rule(sort, flat, number, g, at, init) {
            return Err(fault_at(start, at, rule));
        }
    }
    Ok(())
}

#[tactic(auto, using(crate::proofs::Walked::next_var))]
fn walk_vars(sort: Sort, flat: &Flat, f: &Function, start: u64) -> Result<(), ValidFault>
    ensures { Finds (first_of (first_rule sort flat.now) start
        (var_lines f.now 0 f.now.vars)) result }
{
    for (v, ty) in f.vars.as_slice().iter().enumerate() {
        if let Some(rule) = var_rule(sort, flat, f, v, *ty) {
            return Err(fault_at(start, v, rule));
        }
    }
    Ok(())
}

#[tactic(auto, using(crate::proofs::Walked::next_command))]
fn walk_commands(
    sort: Sort,
    flat: &Flat,
    f: &Function,
    labels: &Labels,
    start: u64,
) -> Result<(), ValidFault>
    requires { (n : ℕ) → place_in labels.now n ≡ place_of_label f.now.commands n }
    ensures { Finds (first_of (first_rule sort flat.now) start
        (command_lines f.now 0 f.now.commands)) result }
{
    for (at, command) in f.commands.as_slice().iter().enumerate() {
        if let Some(rule) = command_rule(sort, flat, f, labels, at, command) {
            return Err(fault_at(start, at, rule));
        }
    }
    Ok(())
}

#[tactic(auto, using(crate::proofs::Walked::passes_end, crate::proofs::Walked::leaves_more))]
fn pass_global_line(
    sort: Sort,
    flat: &Flat,
    number: usize,
    g: &GlobalObject,
    before: u64,
    line: u64,
) -> Result<u64, ValidFault>
    requires here { slice_get flat.now.globals number ≡ Some g.now }
    requires total { before ≡ leaves_before flat.now number }
    requires few { before ≤ MOST_GLOBAL_LEAVES }
    ensures passes { Passes (first_rule sort flat.now) line (global_line number g.now ∷ []) result }
    ensures known { OnOk result (g.now.ty < length flat.now.types) }
    ensures fits { OnOk result (leaves_before flat.now (number + 1) ≤ MOST_GLOBAL_LEAVES) }
{
    match global_rule(sort, flat, number, g, before) {
        Some(rule) => Err(ValidFault::NotValid { line, rule }),
        None => line_after(line, 1),
    }
}

#[tactic(auto, using(crate::proofs::Walked::passes_end, crate::proofs::Walked::length_inits))]
fn pass_inits(
    sort: Sort,
    flat: &Flat,
    number: usize,
    g: &GlobalObject,
    line: u64,
) -> Result<u64, ValidFault>
    ensures { Passes (first_rule sort flat.now) line
        (init_lines number g.now 0 g.now.inits) result }
{
    walk_inits(sort, flat, number, g, line)?;
    line_after(line, g.inits.len())
}

#[tactic(auto, using(crate::proofs::Walked::passes_end))]
fn pass_function_line(
    sort: Sort,
    flat: &Flat,
    number: usize,
    f: &Function,
    reaching: &[bool],
    line: u64,
) -> Result<u64, ValidFault>
    requires { AreReaching sort flat.now reaching.now }
    ensures { Passes (first_rule sort flat.now) line (function_line number f.now ∷ []) result }
{
    match function_rule(sort, flat, number, f, has_modes(sort, flat, f, reaching)) {
        Some(rule) => Err(ValidFault::NotValid { line, rule }),
        None => line_after(line, 1),
    }
}

#[tactic(auto, using(crate::proofs::Walked::passes_end, crate::proofs::Walked::length_vars))]
fn pass_vars(sort: Sort, flat: &Flat, f: &Function, line: u64) -> Result<u64, ValidFault>
    ensures { Passes (first_rule sort flat.now) line (var_lines f.now 0 f.now.vars) result }
{
    walk_vars(sort, flat, f, line)?;
    line_after(line, f.vars.len())
}

fn walk_body(
    alloc: Global,
    sort: Sort,
    flat: &Flat,
    f: &Function,
    start: u64,
) -> Result<(), ValidFault>
    ensures { Finds (first_of (first_rule sort flat.now) start
        (command_lines f.now 0 f.now.commands)) result }
{
    let labels = Labels::new(alloc, f.commands.as_slice())?;
    walk_commands(sort, flat, f, &labels, start)
}

#[tactic(auto, using(crate::proofs::Walked::passes_end, crate::proofs::Walked::length_commands))]
fn pass_body(
    alloc: Global,
    sort: Sort,
    flat: &Flat,
    f: &Function,
    line: u64,
) -> Result<u64, ValidFault>
    ensures { Passes (first_rule sort flat.now) line (body_part f.now) result }
{
    let first = line_after(line, 1)?;
    walk_body(alloc, sort, flat, f, first)?;
    let end = line_after(first, f.commands.len())?;
    line_after(end, 1)
}

fn walk_global(
    sort: Sort,
    flat: &Flat,
    number: usize,
    g: &GlobalObject,
    before: u64,
    line: u64,
) -> Result<u64, ValidFault>
    requires here { slice_get flat.now.globals number ≡ Some g.now }
    requires total { before ≡ leaves_before flat.now number }
    requires few { before ≤ MOST_GLOBAL_LEAVES }
    ensures passes { Passes (first_rule sort flat.now) line (global_part number g.now) result }
    ensures known { OnOk result (g.now.ty < length flat.now.types) }
    ensures fits { OnOk result (leaves_before flat.now (number + 1) ≤ MOST_GLOBAL_LEAVES) }
{
    let first = pass_global_line(sort, flat, number, g, before, line)?;
    pass_inits(sort, flat, number, g, first)
}

fn walk_globals(sort: Sort, flat: &Flat, start: u64) -> Result<u64, ValidFault>
    ensures { Passes (first_rule sort flat.now) start (global_lines 0 flat.now.globals) result }
{
    let mut line = start;
    let mut leaves = 0;
    for (number, g) in flat.globals.as_slice().iter().enumerate() {
        line = walk_global(sort, flat, number, g, leaves, line)?;
        leaves += flat.types.leaves(g.ty);
    }
    Ok(line)
}

fn walk_function(
    alloc: Global,
    sort: Sort,
    flat: &Flat,
    number: usize,
    f: &Function,
    reaching: &[bool],
    line: u64,
) -> Result<u64, ValidFault>
    requires { AreReaching sort flat.now reaching.now }
    ensures { Passes (first_rule sort flat.now) line (function_part number f.now) result }
{
    let first = pass_function_line(sort, flat, number, f, reaching, line)?;
    let begin = pass_vars(sort, flat, f, first)?;
    pass_body(alloc, sort, flat, f, begin)
}

fn walk_functions(
    alloc: Global,
    sort: Sort,
    flat: &Flat,
    reaching: &[bool],
    start: u64,
) -> Result<u64, ValidFault>
    requires { AreReaching sort flat.now reaching.now }
    ensures { Passes (first_rule sort flat.now) start (function_lines 0 flat.now.functions) result }
{
    let mut line = start;
    for (number, f) in flat.functions.as_slice().iter().enumerate() {
        line = walk_function(alloc, sort, flat, number, f, reaching, line)?;
    }
    Ok(line)
}

#[tactic(auto, using(crate::proofs::Walked::passes_end, crate::proofs::Walked::length_further_types))]
fn pass_types(sort: Sort, flat: &Flat) -> Result<u64, ValidFault>
    ensures { Passes (first_rule sort flat.now) 3 (type_lines 8 (drop 8 flat.now.types)) result }
{
    walk_types(sort, flat)?;
    line_after(3, flat.types.len() - 8)
}

fn is_main_name(name: &[u8]) -> bool
    ensures { result ≡ bytes_eq (codes "main") name.now }
{
    name == "main".as_bytes()
}

/// The number of `main`, which is the first function of that name. It takes no memory.
pub fn main_number(flat: &Flat) -> Option<usize>
    ensures { result ≡ main_of flat.now }
{
    flat.functions
        .as_slice()
        .iter()
        .position(|f| is_main_name(f.name.as_slice()))
}

fn is_main_head(f: &Function) -> bool
    ensures { result ≡ is_main_head (Some f.now) }
{
    f.params == 0 && same_number(f.result, Some(INT))
}

fn is_main(flat: &Flat, number: usize) -> bool
    ensures { result ≡ is_main_head (slice_get flat.now.functions number) }
{
    match flat.functions.get(number) {
        Some(f) => is_main_head(f),
        None => false,
    }
}

fn has_main(flat: &Flat) -> bool
    ensures { result ≡ has_main flat.now }
{
    match main_number(flat) {
        Some(number) => is_main(flat, number),
        None => false,
    }
}

fn pass_lines(alloc: Global, sort: Sort, flat: &Flat, reaching: &[bool]) -> Result<u64, ValidFault>
    requires { AreReaching sort flat.now reaching.now }
    ensures { Passes (first_rule sort flat.now) 3 (lines_of flat.now) result }
{
    let first_global = pass_types(sort, flat)?;
    let first_function = walk_globals(sort, flat, first_global)?;
    walk_functions(alloc, sort, flat, reaching, first_function)
}

/// Goes through the lines of a program, and refuses it by the first rule that is broken in the first line
/// that breaks one.
pub(crate) fn find_fault(
    alloc: Global,
    sort: Sort,
    flat: &Flat,
    reaching: &[bool],
) -> Result<(), ValidFault>
    requires { AreReaching sort flat.now reaching.now }
    ensures { Finds (first_fault sort flat.now) result }
{
    let line = pass_lines(alloc, sort, flat, reaching)?;
    if has_main(flat) {
        Ok(())
    } else {
        Err(ValidFault::NotValid {
            line,
            rule: FlatRule::Main,
        })
    }
}
