//! The text of a program.

ghost use Rattle.std.specs.Prelude.{◌≡◌, ◌++◌, ◌∷◌, [], codes, drop, OnOk, IfOk};
ghost use Rattle.porch_flat_line.specs.Text.{Text, first_head, second_head};
ghost use Rattle.porch_flat_text.specs.inside.Texts.{types_text, inits_text, global_text, globals_text, vars_text, commands_text, function_text, functions_text, flat_text};

use crate::draft::{FIRST_HEAD, SECOND_HEAD};
use porch_flat::whole::{Command, Flat, Function};
use porch_flat::{GlobalObject, Init};
use porch_flat_line::{
    Argument, Word, number, put_command, put_head, put_init, put_none, put_two, put_type,
};
use porch_types::Types;
use std::alloc::{AllocError, Global};

/// The text of a program, in its one spelling.
pub fn print_flat(alloc: Global, flat: &Flat) -> Result<Vec<u8>, AllocError>
    ensures { IfOk result (λ text. text.items ≡ Text flat.now) }
{
    let mut out = Vec::new(alloc);
    put_flat(&mut out, flat)?;
    Ok(out)
}

fn put_flat(out: &mut Vec<u8>, flat: &Flat) -> Result<(), AllocError>
    ensures { OnOk result (out.new.items ≡ out.old.items ++ flat_text flat.now) }
{
    put_first(out)?;
    put_second(out)?;
    put_parts(out, flat)
}

fn put_first(out: &mut Vec<u8>) -> Result<(), AllocError>
    ensures { OnOk result (out.new.items ≡ out.old.items ++ first_head) }
{
    out.extend_from_slice(FIRST_HEAD.as_bytes())
}

fn put_second(out: &mut Vec<u8>) -> Result<(), AllocError>
    ensures { OnOk result (out.new.items ≡ out.old.items ++ second_head) }
{
    out.extend_from_slice(SECOND_HEAD.as_bytes())
}

fn put_parts(out: &mut Vec<u8>, flat: &Flat) -> Result<(), AllocError>
    ensures { OnOk result (out.new.items ≡ out.old.items ++ (types_text 8 (drop 8 flat.now.types)
        ++ (globals_text 0 flat.now.globals ++ functions_text 0 flat.now.functions))) }
{
    put_types(out, &flat.types)?;
    put_globals(out, flat.globals.as_slice())?;
    put_functions(out, flat.functions.as_slice())
}

fn put_types(out: &mut Vec<u8>, types: &Types) -> Result<(), AllocError>
    ensures { OnOk result (out.new.items ≡ out.old.items ++ types_text 8 (drop 8 types.now)) }
{
    for n in 8..types.len() {
        put_type(out, n as u64, types.get(n as u32))?;
    }
    Ok(())
}

fn put_inits(out: &mut Vec<u8>, n: u64, inits: &[Init]) -> Result<(), AllocError>
    ensures { OnOk result (out.new.items ≡ out.old.items ++ inits_text n inits.now) }
{
    for init in inits {
        put_init(out, n, *init)?;
    }
    Ok(())
}

fn put_global(out: &mut Vec<u8>, n: u64, global: &GlobalObject) -> Result<(), AllocError>
    ensures { OnOk result (out.new.items ≡ out.old.items ++ global_text n global.now) }
{
    put_two(out, Word::Global, Argument::Number(n), number(global.ty))?;
    put_inits(out, n, global.inits.as_slice())
}

fn put_globals(out: &mut Vec<u8>, globals: &[GlobalObject]) -> Result<(), AllocError>
    ensures { OnOk result (out.new.items ≡ out.old.items ++ globals_text 0 globals.now) }
{
    for (n, global) in globals.iter().enumerate() {
        put_global(out, n as u64, global)?;
    }
    Ok(())
}

fn put_vars(out: &mut Vec<u8>, vars: &[u32]) -> Result<(), AllocError>
    ensures { OnOk result (out.new.items ≡ out.old.items ++ vars_text 0 vars.now) }
{
    for (n, ty) in vars.iter().enumerate() {
        put_two(out, Word::Var, Argument::Number(n as u64), number(*ty))?;
    }
    Ok(())
}

fn put_commands(out: &mut Vec<u8>, commands: &[Command]) -> Result<(), AllocError>
    ensures { OnOk result (out.new.items ≡ out.old.items ++ commands_text commands.now) }
{
    for command in commands {
        put_command(out, command)?;
    }
    Ok(())
}

fn put_function(out: &mut Vec<u8>, n: u64, function: &Function) -> Result<(), AllocError>
    ensures { OnOk result (out.new.items ≡ out.old.items ++ function_text n function.now) }
{
    put_head(out, n, function)?;
    put_vars(out, function.vars.as_slice())?;
    put_none(out, Word::Begin)?;
    put_commands(out, function.commands.as_slice())?;
    put_none(out, Word::End)
}

fn put_functions(out: &mut Vec<u8>, functions: &[Function]) -> Result<(), AllocError>
    ensures { OnOk result (out.new.items ≡ out.old.items ++ functions_text 0 functions.now) }
{
    for (n, function) in functions.iter().enumerate() {
        put_function(out, n as u64, function)?;
    }
    Ok(())
}
