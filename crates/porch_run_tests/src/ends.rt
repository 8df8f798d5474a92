//! Programs in tables: each is run to its end under several layouts, and its end, turns and output are compared.

ghost use Rattle.std.specs.Prelude.{◌≤◌, ◌^◌};
ghost use Rattle.porch_layout.specs.Layouts.{IsLayout};

use crate::kept::KEPT;
use crate::made_one::MADE_ONE;
use crate::made_three::MADE_THREE;
use crate::made_two::MADE_TWO;
use crate::pointers::POINTERS;
use crate::small::{KINDS, SHAPES, SMALL};
use porch_flat::whole::Valid;
use porch_flat_text::parse_flat;
use porch_heap::HeapFull;
use porch_layout::{Layout, built_in};
use porch_run::{Machine, Stop};
use porch_stack::step::Step;
use porch_values::Act;
use std::alloc::{AllocError, Global};
use std::process::Abort;
use std::test::Fail;

/// How a run ends.
#[derive(Clone, Copy, Debug, PartialEq, Eq)]
pub(crate) enum End {
    Done(i32),
    Trap(Act),
    StackFull { asked: u64, left: u64 },
    HeapFull(HeapFull),
    /// One turn more would be too many.
    Paused,
}

/// A run's end, the turns that it counted, and what it showed.
#[derive(Clone, Copy, Debug)]
pub(crate) struct Outcome {
    pub(crate) end: End,
    pub(crate) turns: u64,
    pub(crate) output: &'static str,
}

/// What a program begins with.
#[derive(Clone, Copy, Debug)]
pub(crate) enum Start {
    Nothing,
    Shapes,
    Kinds,
}

/// A valid program, and how its run ends under three layouts.
pub(crate) struct Program {
    pub(crate) start: Start,
    /// The lines behind that. A blank or a newline stands between two lines.
    pub(crate) rest: &'static str,
    pub(crate) le64: Outcome,
    pub(crate) be32: Outcome,
    pub(crate) be32p: Outcome,
}

/// The head lines of each text.
const HEAD: &str = "/* porch flat text, version 1 */\n#include \"porch.h\"\n";

/// The turns that a run may take.
const TURNS: u64 = 100_000;

/// The bytes of the stack and of the heap.
const ROOM: u64 = 65_536;

/// More outputs and checkpoints than any of these runs has.
const STOPS: u32 = 1_000_000;

// Lines with a newline behind each.
fn add_lines(text: &mut Vec<u8>, lines: &str) -> Result<(), AllocError> {
    let mut before = b' ';
    for byte in lines.as_bytes() {
        let is_between = before == b';' && *byte == b' ';
        text.push(if is_between { b'\n' } else { *byte })?;
        before = *byte;
    }
    if !lines.is_empty() {
        text.push(b'\n')?;
    }
    Ok(())
}

fn start_of(start: Start) -> &'static str {
    match start {
        Start::Nothing => "",
        Start::Shapes => SHAPES,
        Start::Kinds => KINDS,
    }
}

fn text_of(alloc: Global, start: &str, rest: &str) -> Result<Vec<u8>, AllocError> {
    let mut text = Vec::new(alloc);
    text.extend_from_slice(HEAD.as_bytes())?;
    add_lines(&mut text, start)?;
    add_lines(&mut text, rest)?;
    Ok(text)
}

/// A machine for a program in text, where stack and heap are in their ranges.
pub(crate) fn machine_of(
    alloc: Global,
    start: &str,
    rest: &str,
    layout: &Layout,
    stack: u64,
    heap: u64,
) -> Result<Option<Machine>, Fail>
    requires { IsLayout layout.now }
{
    if stack < 4096 || stack > 16_777_216 || heap < 16 || heap > 67_108_864 {
        return Ok(None);
    }
    let text = text_of(alloc, start, rest)?;
    let program = Valid::new(alloc, parse_flat(alloc, text.as_slice())?)?;
    let machine = Machine::prepare(alloc, program, layout, stack, heap)?;
    Ok(Some(machine))
}

fn end_of(step: Step) -> Option<End> {
    match step {
        Step::Went | Step::Out | Step::Due => None,
        Step::Ended { value } => Some(End::Done(value)),
        Step::Trap { act } => Some(End::Trap(act)),
        Step::StackFull { asked, left } => Some(End::StackFull { asked, left }),
        Step::HeapFull(fault) => Some(End::HeapFull(fault)),
    }
}

fn is_output(step: Step) -> bool {
    match step {
        Step::Out => true,
        Step::Went
        | Step::Due
        | Step::Ended { value: _ }
        | Step::Trap { act: _ }
        | Step::StackFull { asked: _, left: _ }
        | Step::HeapFull(_) => false,
    }
}

/// Runs a machine to its end, which is kept with what it shows.
pub(crate) fn run_out(
    machine: &mut Machine,
    output: &mut Vec<u8>,
) -> Result<Option<End>, AllocError>
    requires { machine.old.state.turns ≤ 2 ^ 62 }
    ensures { machine.new.state.turns ≤ 2 ^ 62 }
{
    for _ in 0..STOPS {
        match machine.run(TURNS) {
            Stop::Paused => return Ok(Some(End::Paused)),
            Stop::Answered(step) => {
                if let Some(end) = end_of(step) {
                    return Ok(Some(end));
                }
                if is_output(step) {
                    output.extend_from_slice(machine.shown())?;
                }
            }
        }
    }
    Ok(None)
}

fn try_under(
    rt: &impl Abort,
    alloc: Global,
    program: &Program,
    name: &str,
    outcome: &Outcome,
) -> Result<(), Fail> {
    let layout = built_in(name);
    assert!(rt; layout.is_some());
    if let Some(layout) = layout {
        let start = start_of(program.start);
        let made = machine_of(alloc, start, program.rest, &layout, ROOM, ROOM)?;
        assert!(rt; made.is_some());
        if let Some(mut machine) = made {
            let mut output = Vec::new(alloc);
            assert_eq!(rt; machine.turns(), 0);
            assert_eq!(rt; run_out(&mut machine, &mut output)?, Some(outcome.end));
            assert_eq!(rt; machine.turns(), outcome.turns);
            assert_eq!(rt; output.as_slice(), outcome.output.as_bytes());
        }
    }
    Ok(())
}

fn try_program(rt: &impl Abort, alloc: Global, program: &Program) -> Result<(), Fail> {
    try_under(rt, alloc, program, "le64", &program.le64)?;
    try_under(rt, alloc, program, "be32", &program.be32)?;
    try_under(rt, alloc, program, "be32p", &program.be32p)
}

#[test]
fn programs_with_checkpoints_end_as_they_have_to(rt: HostRuntime) -> Result<(), Fail> {
    for program in &KEPT {
        try_program(&rt, rt.alloc(), program)?;
    }
    Ok(())
}

#[test]
fn small_programs_end_as_they_have_to(rt: HostRuntime) -> Result<(), Fail> {
    for program in &SMALL {
        try_program(&rt, rt.alloc(), program)?;
    }
    Ok(())
}

#[test]
fn programs_with_pointers_end_as_they_have_to(rt: HostRuntime) -> Result<(), Fail> {
    for program in &POINTERS {
        try_program(&rt, rt.alloc(), program)?;
    }
    Ok(())
}

#[test]
fn programs_made_one_end_as_they_have_to(rt: HostRuntime) -> Result<(), Fail> {
    for program in &MADE_ONE {
        try_program(&rt, rt.alloc(), program)?;
    }
    Ok(())
}

#[test]
fn programs_made_two_end_as_they_have_to(rt: HostRuntime) -> Result<(), Fail> {
    for program in &MADE_TWO {
        try_program(&rt, rt.alloc(), program)?;
    }
    Ok(())
}

#[test]
fn programs_made_three_end_as_they_have_to(rt: HostRuntime) -> Result<(), Fail> {
    for program in &MADE_THREE {
        try_program(&rt, rt.alloc(), program)?;
    }
    Ok(())
}
