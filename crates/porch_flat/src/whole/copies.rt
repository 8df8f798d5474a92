//! Equal programs.

ghost use Rattle.std.specs.Prelude.{◌≡◌, ◌∷◌, ◌++◌, [], IfOk, OnOk};

use crate::flat::{GlobalObject, Init};
use crate::whole::{Command, Flat, Function};
use sqlite_items::Items;
use std::alloc::{AllocError, Global};

/// An equal program.
pub(crate) fn copy_flat(alloc: Global, flat: &Flat) -> Result<Flat, AllocError>
    ensures { IfOk result (λ copy. copy ≡ flat.now) }
{
    let types = flat.types.copy(alloc)?;
    let globals = copy_globals(alloc, flat.globals.as_slice())?;
    let functions = copy_functions(alloc, flat.functions.as_slice())?;
    Ok(Flat {
        types,
        globals,
        functions,
    })
}

fn copy_globals(alloc: Global, globals: &[GlobalObject]) -> Result<Items<GlobalObject>, AllocError>
    ensures { IfOk result (λ copy. copy ≡ globals.now) }
{
    let mut copy = Items::new(alloc);
    for g in globals {
        add_global(alloc, &mut copy, g)?;
    }
    Ok(copy)
}

fn add_global(
    alloc: Global,
    globals: &mut Items<GlobalObject>,
    g: &GlobalObject,
) -> Result<(), AllocError>
    ensures { OnOk result (globals.new ≡ globals.old ++ g.now ∷ []) }
{
    let inits: Items<Init> = Items::from_slice(alloc, g.inits.as_slice())?;
    globals.push(GlobalObject { ty: g.ty, inits })
}

fn copy_functions(alloc: Global, functions: &[Function]) -> Result<Items<Function>, AllocError>
    ensures { IfOk result (λ copy. copy ≡ functions.now) }
{
    let mut copy = Items::new(alloc);
    for f in functions {
        add_function(alloc, &mut copy, f)?;
    }
    Ok(copy)
}

fn add_function(
    alloc: Global,
    functions: &mut Items<Function>,
    f: &Function,
) -> Result<(), AllocError>
    ensures { OnOk result (functions.new ≡ functions.old ++ f.now ∷ []) }
{
    let name = Items::from_slice(alloc, f.name.as_slice())?;
    let vars = Items::from_slice(alloc, f.vars.as_slice())?;
    let commands = copy_commands(alloc, f.commands.as_slice())?;
    functions.push(Function {
        name,
        result: f.result,
        params: f.params,
        vars,
        commands,
    })
}

fn copy_commands(alloc: Global, commands: &[Command]) -> Result<Items<Command>, AllocError>
    ensures { IfOk result (λ copy. copy ≡ commands.now) }
{
    let mut copy = Items::new(alloc);
    for command in commands {
        add_command(alloc, &mut copy, command)?;
    }
    Ok(copy)
}

fn add_command(
    alloc: Global,
    commands: &mut Items<Command>,
    command: &Command,
) -> Result<(), AllocError>
    ensures { OnOk result (commands.new ≡ commands.old ++ command.now ∷ []) }
{
    commands.push(copy_command(alloc, command)?)
}

fn copy_command(alloc: Global, command: &Command) -> Result<Command, AllocError>
    ensures { IfOk result (λ copy. copy ≡ command.now) }
{
    let copy = match command {
        Command::Call(r, f, os) => Command::Call(*r, *f, Items::from_slice(alloc, os.as_slice())?),
        Command::Restore(vs) => Command::Restore(Items::from_slice(alloc, vs.as_slice())?),
        Command::Push(vs) => Command::Push(Items::from_slice(alloc, vs.as_slice())?),
        Command::Move(v, o) => Command::Move(*v, *o),
        Command::Cast(v, w) => Command::Cast(*v, *w),
        Command::Add(v, a, b) => Command::Add(*v, *a, *b),
        Command::Sub(v, a, b) => Command::Sub(*v, *a, *b),
        Command::Mul(v, a, b) => Command::Mul(*v, *a, *b),
        Command::Div(v, a, b) => Command::Div(*v, *a, *b),
        Command::Rem(v, a, b) => Command::Rem(*v, *a, *b),
        Command::And(v, a, b) => Command::And(*v, *a, *b),
        Command::Or(v, a, b) => Command::Or(*v, *a, *b),
        Command::Xor(v, a, b) => Command::Xor(*v, *a, *b),
        Command::Shl(v, a, b) => Command::Shl(*v, *a, *b),
        Command::Shr(v, a, b) => Command::Shr(*v, *a, *b),
        Command::Not(v, o) => Command::Not(*v, *o),
        Command::Lt(v, a, b) => Command::Lt(*v, *a, *b),
        Command::Le(v, a, b) => Command::Le(*v, *a, *b),
        Command::Eq(v, a, b) => Command::Eq(*v, *a, *b),
        Command::Ne(v, a, b) => Command::Ne(*v, *a, *b),
        Command::Local(v, w, leaf) => Command::Local(*v, *w, *leaf),
        Command::GlobalA(v, g, leaf) => Command::GlobalA(*v, *g, *leaf),
        Command::Member(v, p, leaf) => Command::Member(*v, *p, *leaf),
        Command::Step(v, p, o) => Command::Step(*v, *p, *o),
        Command::Back(v, p, o) => Command::Back(*v, *p, *o),
        Command::Diff(v, p, q) => Command::Diff(*v, *p, *q),
        Command::Load(v, p) => Command::Load(*v, *p),
        Command::Store(p, o) => Command::Store(*p, *o),
        Command::Copy(p, q) => Command::Copy(*p, *q),
        Command::Kill(v) => Command::Kill(*v),
        Command::Alloc(v, o) => Command::Alloc(*v, *o),
        Command::Calloc(v, o) => Command::Calloc(*v, *o),
        Command::Free(p) => Command::Free(*p),
        Command::Char(v, o) => Command::Char(*v, *o),
        Command::Dec(v, o) => Command::Dec(*v, *o),
        Command::Hex(v, o) => Command::Hex(*v, *o),
        Command::Text(v, p) => Command::Text(*v, *p),
        Command::Label(n) => Command::Label(*n),
        Command::Jump(n) => Command::Jump(*n),
        Command::If(o, n) => Command::If(*o, *n),
        Command::Turn => Command::Turn,
        Command::Return(o) => Command::Return(*o),
        Command::Checkpoint => Command::Checkpoint,
        Command::Table(k, n) => Command::Table(*k, *n),
        Command::Saved(k, n) => Command::Saved(*k, *n),
    };
    Ok(copy)
}
