//! The flat program of a tree.

ghost use Rattle.std.specs.Prelude.{◌≡◌, ◌<◌, ◌^◌, length, replicate, IfOk};
ghost use Rattle.porch_syntax.specs.Tree.{program_of};
ghost use Rattle.porch_flat.specs.Valid.{int_type};
ghost use Rattle.porch_flat.specs.declared.valid.ValidFault.TheVariants.{NoMemory};
ghost use Rattle.porch_lower.specs.Code.{main_code as code_of_main, main_temps as temps_of_main};
ghost use Rattle.porch_lower.specs.inside.Programs.{main_function as function_of_main, flat_of};
ghost use Rattle.porch_lower.specs.Lowered.{IsLowerable, IsLowered, MeansTheSame};

use crate::statement::{declarations, statements};
use crate::temporaries::{declarations_temps, statements_temps};
use porch_abstract::laws::silent_steps_tell_nothing;
use porch_flat::{Command, Flat, Function, Operand, Plain, ValidFault};
use porch_syntax::Tree;
use porch_types::{INT, Types};
use sqlite_items::Items;
use std::alloc::{AllocError, Global};

/// So many ints.
fn ints(alloc: Global, count: u32) -> Result<Items<u32>, AllocError>
    ensures { IfOk result (λ types. types ≡ replicate count int_type) }
{
    let mut types = Items::new(alloc);
    for _ in 0..count {
        types.push(INT)?;
    }
    Ok(types)
}

/// How many temporaries `main` takes.
fn main_temps(tree: &Tree) -> u32
    requires { temps_of_main (program_of tree.now) < 2 ^ 30 }
    ensures { result ≡ temps_of_main (program_of tree.now) }
{
    declarations_temps(tree.declarations.as_slice()).max(statements_temps(
        tree.statements.as_slice(),
    ))
}

/// The commands of `main`, whose temporaries begin behind the declared variables.
fn main_code(alloc: Global, tree: &Tree, declared: u32) -> Result<Items<Command>, AllocError>
    requires lowerable { IsLowerable (program_of tree.now) }
    requires counted { declared ≡ length (program_of tree.now).declarations }
    ensures { IfOk result (λ commands. commands ≡ code_of_main (program_of tree.now)) }
{
    let mut commands = Items::new(alloc);
    declarations(tree.declarations.as_slice(), declared, &mut commands)?;
    statements(tree.statements.as_slice(), declared, &mut commands)?;
    commands.push(Command::Return(Some(Operand::Constant(0))))?;
    Ok(commands)
}

/// The function `main`.
fn main_function(alloc: Global, tree: &Tree) -> Result<Function, AllocError>
    requires { IsLowerable (program_of tree.now) }
    ensures { IfOk result (λ function. function ≡ function_of_main (program_of tree.now)) }
{
    let declared = tree.declarations.len() as u32;
    let count = declared + main_temps(tree);
    let name = Items::from_slice(alloc, b"main")?;
    let vars = ints(alloc, count)?;
    let commands = main_code(alloc, tree, declared)?;
    Ok(Function {
        name,
        result: Some(INT),
        params: 0,
        vars,
        commands,
    })
}

/// The program, of one function.
fn flat(alloc: Global, tree: &Tree) -> Result<Flat, AllocError>
    requires { IsLowerable (program_of tree.now) }
    ensures { IfOk result (λ flat. flat ≡ flat_of (program_of tree.now)) }
{
    let types = Types::new(alloc)?;
    let main = main_function(alloc, tree)?;
    let mut functions = Items::new(alloc);
    functions.push(main)?;
    Ok(Flat {
        types,
        globals: Items::new(alloc),
        functions,
    })
}

/// The fault of a valid program.
fn no_memory(fault: ValidFault) -> AllocError
    requires { fault ≡ NoMemory }
{
    match fault {
        ValidFault::NotValid => unreachable!(),
        ValidFault::NoMemory => AllocError,
    }
}

/// The flat program that means what a tree means, or an error where there is no memory.
///
/// It takes a time linear in the size of the tree.
pub fn lower(alloc: Global, tree: &Tree) -> Result<Plain, AllocError>
    requires { IsLowerable (program_of tree.now) }
    ensures meaning { IfOk result (λ plain. MeansTheSame (program_of tree.now) plain) }
    ensures lowered { IfOk result (λ plain. IsLowered (program_of tree.now) plain) }
{
    // No command makes a mark, and neither does the tree.
    silent_steps_tell_nothing();
    let flat = flat(alloc, tree)?;
    match Plain::new(alloc, flat) {
        Ok(plain) => Ok(plain),
        Err(fault) => Err(no_memory(fault)),
    }
}
