//! Programs in tables: each is run to its end, and its end, turns and output are compared.

ghost use Rattle.porch_steps.specs.Held.{Fits};

use crate::kept::KEPT;
use crate::large::LARGE;
use crate::made_five::MADE_FIVE;
use crate::made_four::MADE_FOUR;
use crate::made_one::MADE_ONE;
use crate::made_seven::MADE_SEVEN;
use crate::made_six::MADE_SIX;
use crate::made_three::MADE_THREE;
use crate::made_two::MADE_TWO;
use crate::small::{KINDS, SHAPES, SMALL};
use porch_abstract::AStep;
use porch_flat::whole::{FlatRule, Plain, Valid, ValidFault};
use porch_flat_text::parse_flat;
use porch_steps::Abstract;
use porch_values::{Act, Widths};
use std::alloc::{AllocError, Global};
use std::process::Abort;
use std::test::Fail;

/// How a run ends.
#[derive(Clone, Copy, Debug, PartialEq, Eq)]
pub(crate) enum End {
    Done(i32),
    Met(Act),
    /// One turn more would be too many.
    Paused,
}

/// What a program begins with.
#[derive(Clone, Copy, Debug)]
pub(crate) enum Start {
    Nothing,
    Shapes,
    Kinds,
}

/// A valid program, and how its run ends where `long` has 64 bits.
pub(crate) struct Program {
    pub(crate) start: Start,
    /// The lines behind that. A blank or a newline stands between two lines.
    pub(crate) rest: &'static str,
    /// The line and the rule that it breaks as a program that saves no frames.
    pub(crate) plain: Option<(u64, FlatRule)>,
    pub(crate) end: End,
    pub(crate) turns: u64,
    pub(crate) output: &'static str,
}

/// The head lines of each text.
const HEAD: &str = "/* porch flat text, version 1 */\n#include \"porch.h\"\n";

/// The turns that a run may take.
const TURNS: u64 = 100_000;

/// More steps than any of these runs takes.
const STEPS: u32 = 1_000_000;

// Lines with a newline behind each.
fn add_lines(text: &mut Vec<u8>, lines: &str) -> Result<(), AllocError> {
    let mut before = b' ';
    for byte in lines.as_bytes() {
        let is_between = before == b';' && *byte == b' ';
        text.push(if is_between { b'\n' } else { *byte })?;
        before = *byte;
    }
    if !lines.is_empty() {
        text.push(b'\n')?;
    }
    Ok(())
}

fn start_of(start: Start) -> &'static str {
    match start {
        Start::Nothing => "",
        Start::Shapes => SHAPES,
        Start::Kinds => KINDS,
    }
}

fn text_of(alloc: Global, program: &Program) -> Result<Vec<u8>, AllocError> {
    let mut text = Vec::new(alloc);
    text.extend_from_slice(HEAD.as_bytes())?;
    add_lines(&mut text, start_of(program.start))?;
    add_lines(&mut text, program.rest)?;
    Ok(text)
}

fn plain_refusal(alloc: Global, text: &[u8]) -> Result<Option<(u64, FlatRule)>, Fail> {
    match Plain::new(alloc, parse_flat(alloc, text)?) {
        Ok(_) => Ok(None),
        Err(ValidFault::NotValid { line, rule }) => Ok(Some((line, rule))),
        Err(ValidFault::NoMemory) => Err(AllocError.into()),
    }
}

fn end_of(machine: &mut Abstract, program: &Valid) -> Result<Option<End>, AllocError>
    requires { Fits program.now machine.old }
{
    for _ in 0..STEPS {
        if machine.turns() >= TURNS && machine.turn_next(program) {
            return Ok(Some(End::Paused));
        }
        match machine.step(program)? {
            AStep::Went => {}
            AStep::Ended { value } => return Ok(Some(End::Done(value))),
            AStep::Act { act } => return Ok(Some(End::Met(act))),
        }
    }
    Ok(None)
}

// The same in one call, which doesn't pause.
fn end_at_once(machine: &mut Abstract, program: &Valid) -> Result<Option<End>, AllocError>
    requires { Fits program.now machine.old }
{
    match machine.run(program, u64::from(STEPS))? {
        AStep::Went => Ok(None),
        AStep::Ended { value } => Ok(Some(End::Done(value))),
        AStep::Act { act } => Ok(Some(End::Met(act))),
    }
}

fn try_program(rt: &impl Abort, alloc: Global, program: &Program) -> Result<(), Fail> {
    let text = text_of(alloc, program)?;
    assert_eq!(rt; plain_refusal(alloc, text.as_slice())?, program.plain);
    let valid = Valid::new(alloc, parse_flat(alloc, text.as_slice())?)?;
    let widths = Widths {
        narrow: false,
        wide: true,
    };
    let mut machine = Abstract::new(alloc, &valid, widths)?;
    let end = end_of(&mut machine, &valid)?;
    assert_eq!(rt; end, Some(program.end));
    assert_eq!(rt; machine.turns(), program.turns);
    assert!(rt; machine.output() == program.output.as_bytes());
    if program.end != End::Paused {
        let mut machine = Abstract::new(alloc, &valid, widths)?;
        let end = end_at_once(&mut machine, &valid)?;
        assert_eq!(rt; end, Some(program.end));
        assert_eq!(rt; machine.turns(), program.turns);
        assert!(rt; machine.output() == program.output.as_bytes());
    }
    Ok(())
}

#[test]
fn small_programs_end_as_they_have_to(rt: HostRuntime) -> Result<(), Fail> {
    for program in &SMALL {
        try_program(&rt, rt.alloc(), program)?;
    }
    Ok(())
}

#[test]
fn programs_with_checkpoints_end_as_they_have_to(rt: HostRuntime) -> Result<(), Fail> {
    for program in &KEPT {
        try_program(&rt, rt.alloc(), program)?;
    }
    Ok(())
}

#[test]
fn programs_with_large_objects_end_as_they_have_to(rt: HostRuntime) -> Result<(), Fail> {
    for program in &LARGE {
        try_program(&rt, rt.alloc(), program)?;
    }
    Ok(())
}

#[test]
fn programs_made_one_end_as_they_have_to(rt: HostRuntime) -> Result<(), Fail> {
    for program in &MADE_ONE {
        try_program(&rt, rt.alloc(), program)?;
    }
    Ok(())
}

#[test]
fn programs_made_two_end_as_they_have_to(rt: HostRuntime) -> Result<(), Fail> {
    for program in &MADE_TWO {
        try_program(&rt, rt.alloc(), program)?;
    }
    Ok(())
}

#[test]
fn programs_made_three_end_as_they_have_to(rt: HostRuntime) -> Result<(), Fail> {
    for program in &MADE_THREE {
        try_program(&rt, rt.alloc(), program)?;
    }
    Ok(())
}

#[test]
fn programs_made_four_end_as_they_have_to(rt: HostRuntime) -> Result<(), Fail> {
    for program in &MADE_FOUR {
        try_program(&rt, rt.alloc(), program)?;
    }
    Ok(())
}

#[test]
fn programs_made_five_end_as_they_have_to(rt: HostRuntime) -> Result<(), Fail> {
    for program in &MADE_FIVE {
        try_program(&rt, rt.alloc(), program)?;
    }
    Ok(())
}

#[test]
fn programs_made_six_end_as_they_have_to(rt: HostRuntime) -> Result<(), Fail> {
    for program in &MADE_SIX {
        try_program(&rt, rt.alloc(), program)?;
    }
    Ok(())
}

#[test]
fn programs_made_seven_end_as_they_have_to(rt: HostRuntime) -> Result<(), Fail> {
    for program in &MADE_SEVEN {
        try_program(&rt, rt.alloc(), program)?;
    }
    Ok(())
}
