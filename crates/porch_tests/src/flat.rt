//! Which flat programs are valid, as worked examples.

use porch_flat::{Command, Flat, Function, Operand, Plain, Valid, ValidFault};
use porch_types::Types;
use sqlite_items::Items;
use std::alloc::Global;
use std::process::Abort;
use std::test::Fail;

// A function `main` with two int variables.
fn main_of(alloc: Global, commands: &[Command]) -> Result<Function, Fail> {
    Ok(Function {
        name: Items::from_slice(alloc, "main".as_bytes())?,
        result: Some(4),
        params: 0,
        vars: Items::from_slice(alloc, &[4, 4])?,
        commands: Items::from_slice(alloc, commands)?,
    })
}

fn program(alloc: Global, commands: &[Command], copies: usize) -> Result<Flat, Fail> {
    let mut functions = Items::new(alloc);
    for _ in 0..copies {
        functions.push(main_of(alloc, commands)?)?;
    }
    Ok(Flat {
        types: Types::new(alloc)?,
        globals: Items::new(alloc),
        functions,
    })
}

fn is_valid(alloc: Global, commands: &[Command], copies: usize) -> Result<Option<bool>, Fail> {
    match Valid::new(alloc, program(alloc, commands, copies)?) {
        Ok(_) => Ok(Some(true)),
        Err(ValidFault::NotValid) => Ok(Some(false)),
        Err(ValidFault::NoMemory) => Ok(None),
    }
}

fn is_plain(alloc: Global, commands: &[Command], copies: usize) -> Result<Option<bool>, Fail> {
    match Plain::new(alloc, program(alloc, commands, copies)?) {
        Ok(_) => Ok(Some(true)),
        Err(ValidFault::NotValid) => Ok(Some(false)),
        Err(ValidFault::NoMemory) => Ok(None),
    }
}

static LOOP: [Command; 4] = [
    Command::Label(0),
    Command::Turn,
    Command::Move(1, Operand::Constant(2_147_483_647)),
    Command::If(Operand::Var(1), 0),
];

/// The commands of `main`, how often it stands there, and whether that is taken.
type Row = (&'static [Command], usize, bool);

static ROWS: [Row; 7] = [
    (&[], 1, true),
    (&[], 0, false),
    (&[Command::Jump(0)], 1, false),
    (&[Command::Label(0), Command::Label(0)], 1, false),
    (&[Command::Label(0), Command::Jump(0)], 1, false),
    (&[Command::Move(2, Operand::Var(0))], 1, false),
    (
        &[Command::Char(0, Operand::Constant(2_147_483_648))],
        1,
        false,
    ),
];

// Both types take a program, or neither does.
fn expect_taken(
    rt: &impl Abort,
    alloc: Global,
    commands: &[Command],
    copies: usize,
    want: bool,
) -> Result<(), Fail> {
    assert_eq!(rt; is_valid(alloc, commands, copies)?, Some(want));
    assert_eq!(rt; is_plain(alloc, commands, copies)?, Some(want));
    Ok(())
}

#[test]
fn only_programs_that_break_no_rule_are_taken(rt: HostRuntime) -> Result<(), Fail> {
    let alloc = rt.alloc();
    expect_taken(&rt, alloc, &LOOP, 1, true)?;
    expect_taken(&rt, alloc, &LOOP, 2, false)?;
    for (commands, copies, want) in &ROWS {
        expect_taken(&rt, alloc, commands, *copies, *want)?;
    }
    Ok(())
}
