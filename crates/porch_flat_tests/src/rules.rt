//! Which flat programs are refused, by which line and which rule.

use porch_flat::whole::{Command, Flat, FlatRule, Function, Plain, Valid, ValidFault};
use porch_flat::{GlobalObject, Init, Operand};
use porch_types::{Members, Ty, Types};
use sqlite_items::Items;
use std::alloc::{AllocError, Global};
use std::process::Abort;
use std::test::Fail;

// The types of a small program: `int *`, a struct of an `int` and a `long`, a pointer to that, `char *`.
fn some_types(alloc: Global) -> Result<Types, Fail> {
    let mut types = Types::new(alloc)?;
    add(&mut types, Ty::Pointer { to: 4 })?;
    let members = Members::from_vec(Vec::from_slice(alloc, &[4, 6])?);
    add(&mut types, Ty::Struct { members })?;
    add(&mut types, Ty::Pointer { to: 9 })?;
    add(&mut types, Ty::Pointer { to: 0 })?;
    Ok(types)
}

fn add(types: &mut Types, ty: Ty) -> Result<(), Fail> {
    if types.len() < 100 {
        let _ = types.add(ty);
    }
    Ok(())
}

// That struct, whose int begins with 5, and a pointer to that int.
fn some_globals(alloc: Global) -> Result<Items<GlobalObject>, AllocError> {
    let mut globals = Items::new(alloc);
    globals.push(GlobalObject {
        ty: 9,
        inits: Items::from_slice(alloc, &[Init::Value(0, 5)])?,
    })?;
    globals.push(GlobalObject {
        ty: 8,
        inits: Items::from_slice(alloc, &[Init::Address(0, 0, 0)])?,
    })?;
    Ok(globals)
}

fn function(
    alloc: Global,
    name: &str,
    returned: Option<u32>,
    params: u32,
    vars: &[u32],
    commands: Items<Command>,
) -> Result<Function, AllocError> {
    Ok(Function {
        name: Items::from_slice(alloc, name.as_bytes())?,
        result: returned,
        params,
        vars: Items::from_slice(alloc, vars)?,
        commands,
    })
}

// `long f(int, int *)`, and a function with the command in line 28 and a return behind it.
fn program(alloc: Global, name: &str, command: Command) -> Result<Flat, Fail> {
    let mut returned = Items::new(alloc);
    returned.push(Command::Return(Some(Operand::Var(2))))?;
    let mut commands = Items::new(alloc);
    commands.push(command)?;
    commands.push(Command::Return(Some(Operand::Constant(0))))?;
    let mut functions = Items::new(alloc);
    functions.push(function(alloc, "f", Some(6), 2, &[4, 8, 6], returned)?)?;
    let vars = [4, 6, 8, 9, 10, 0, 5, 7];
    functions.push(function(alloc, name, Some(4), 0, &vars, commands)?)?;
    Ok(Flat {
        types: some_types(alloc)?,
        globals: some_globals(alloc)?,
        functions,
    })
}

// The line and the rule that a program is refused by.
type Refusal = Option<(u64, FlatRule)>;

fn refusal_of(fault: ValidFault) -> Result<Refusal, Fail> {
    match fault {
        ValidFault::NotValid { line, rule } => Ok(Some((line, rule))),
        ValidFault::NoMemory => Err(AllocError.into()),
    }
}

fn as_plain(alloc: Global, name: &str, command: Command) -> Result<Refusal, Fail> {
    match Plain::new(alloc, program(alloc, name, command)?) {
        Ok(_) => Ok(None),
        Err(fault) => refusal_of(fault),
    }
}

fn as_valid(alloc: Global, name: &str, command: Command) -> Result<Refusal, Fail> {
    match Valid::new(alloc, program(alloc, name, command)?) {
        Ok(valid) => {
            let _ = valid.copy(alloc)?;
            Ok(None)
        }
        Err(fault) => refusal_of(fault),
    }
}

// A command alone, which is refused alike by both.
fn try_command(
    rt: &impl Abort,
    alloc: Global,
    command: Command,
    want: Option<FlatRule>,
) -> Result<(), Fail> {
    let found = as_valid(alloc, "main", command)?;
    assert_eq!(rt; found, want.map(|rule| (28, rule)));
    Ok(())
}

#[test]
fn commands_are_refused_by_the_first_rule(rt: HostRuntime) -> Result<(), Fail> {
    let alloc = rt.alloc();
    let zero = Operand::Constant(0);
    let large = Operand::Constant(2_147_483_648);
    try_command(&rt, alloc, Command::Kill(3), None)?;
    try_command(
        &rt,
        alloc,
        Command::Move(0, Operand::Constant(2_147_483_647)),
        None,
    )?;
    try_command(&rt, alloc, Command::Move(8, zero), Some(FlatRule::Number))?;
    try_command(&rt, alloc, Command::Local(2, 3, 2), Some(FlatRule::Number))?;
    try_command(
        &rt,
        alloc,
        Command::Move(0, Operand::Var(1)),
        Some(FlatRule::Kind),
    )?;
    try_command(
        &rt,
        alloc,
        Command::Step(2, 2, Operand::Var(5)),
        Some(FlatRule::Kind),
    )?;
    try_command(
        &rt,
        alloc,
        Command::Move(0, large),
        Some(FlatRule::Constant),
    )?;
    try_command(
        &rt,
        alloc,
        Command::Lt(0, Operand::Constant(1), Operand::Var(2)),
        Some(FlatRule::Constant),
    )?;
    try_command(&rt, alloc, Command::Jump(0), Some(FlatRule::Jump))?;
    try_command(
        &rt,
        alloc,
        Command::Return(Some(Operand::Var(1))),
        Some(FlatRule::Arity),
    )?;
    let arguments = Items::from_slice(alloc, &[Operand::Var(0), Operand::Var(2)])?;
    try_command(&rt, alloc, Command::Call(Some(1), 0, arguments), None)?;
    let few = Items::from_slice(alloc, &[Operand::Var(0)])?;
    try_command(
        &rt,
        alloc,
        Command::Call(Some(1), 0, few),
        Some(FlatRule::Arity),
    )
}

#[test]
fn each_sort_has_its_own_commands(rt: HostRuntime) -> Result<(), Fail> {
    let alloc = rt.alloc();
    assert_eq!(rt; as_plain(alloc, "main", Command::Checkpoint)?, None);
    assert_eq!(rt;
        as_valid(alloc, "main", Command::Checkpoint)?,
        Some((18, FlatRule::Modes))
    );
    assert_eq!(rt;
        as_plain(alloc, "main", Command::Table(1, 0))?,
        Some((18, FlatRule::Modes))
    );
    assert_eq!(rt;
        as_valid(alloc, "main", Command::Saved(1, 0))?,
        Some((18, FlatRule::Modes))
    );
    assert_eq!(rt;
        as_plain(alloc, "other", Command::Turn)?,
        Some((31, FlatRule::Main))
    );
    assert_eq!(rt;
        as_plain(alloc, "other", Command::Jump(0))?,
        Some((28, FlatRule::Jump))
    );
    Ok(())
}

// `main` shows an A behind a checkpoint, and saves and rebuilds its first variable.
fn saving_program(alloc: Global, vars: &[u32]) -> Result<Flat, Fail> {
    let mut commands = Items::new(alloc);
    commands.push(Command::Restore(Items::from_slice(alloc, &[0])?))?;
    commands.push(Command::Table(1, 0))?;
    commands.push(Command::Label(0))?;
    commands.push(Command::Checkpoint)?;
    commands.push(Command::Saved(1, 1))?;
    commands.push(Command::Char(0, Operand::Constant(65)))?;
    commands.push(Command::Return(Some(Operand::Constant(0))))?;
    commands.push(Command::Label(1))?;
    commands.push(Command::Push(Items::from_slice(alloc, &[0])?))?;
    let mut functions = Items::new(alloc);
    functions.push(function(alloc, "main", Some(4), 0, vars, commands)?)?;
    Ok(Flat {
        types: Types::new(alloc)?,
        globals: Items::new(alloc),
        functions,
    })
}

fn saving_refusal(alloc: Global, flat: Flat) -> Result<Refusal, Fail> {
    match Valid::new(alloc, flat) {
        Ok(_) => Ok(None),
        Err(fault) => refusal_of(fault),
    }
}

#[test]
fn a_frame_is_saved_whole(rt: HostRuntime) -> Result<(), Fail> {
    let alloc = rt.alloc();
    assert_eq!(rt; saving_refusal(alloc, saving_program(alloc, &[4])?)?, None);
    let part = saving_program(alloc, &[4, 4])?;
    assert_eq!(rt; saving_refusal(alloc, part)?, Some((3, FlatRule::Modes)));
    Ok(())
}
