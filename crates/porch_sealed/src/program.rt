//! Functions and globals in the last numbers of their types.

ghost use Rattle.std.specs.Prelude.{◌≡◌, ◌++◌, IfOk, OnOk, map};
ghost use Rattle.std.specs.Option.{option_map};
ghost use Rattle.porch_typed.specs.Views.{function_of, statements_of, statement_of};
ghost use Rattle.porch_check.specs.Sealing.{sealed_function, sealed_global};
ghost use Rattle.porch_sealing.specs.Numbers.{last_in};

use crate::pairs::both_of;
use crate::statement::sealed_statements;
use porch_sealing::{LastNumbers, last_of, sealed_global};
use porch_typed::{Function, GlobalVariable};
use sqlite_items::Items;
use std::alloc::{AllocError, Global};

/// The functions of a program, in the last numbers of their types.
pub fn sealed_functions(
    alloc: Global,
    numbers: &LastNumbers,
    functions: &[Function],
) -> Result<Items<Function>, AllocError>
    ensures { IfOk result (λ r. map function_of r
        ≡ map (sealed_function (last_in numbers.now)) (map function_of functions.now)) }
{
    let mut out = Items::new(alloc);
    put_functions(alloc, numbers, functions, &mut out)?;
    Ok(out)
}

/// The globals of a program, in the last numbers of their types.
pub fn sealed_globals(
    alloc: Global,
    numbers: &LastNumbers,
    globals: &[GlobalVariable],
) -> Result<Items<GlobalVariable>, AllocError>
    ensures { IfOk result (λ r. r ≡ map (sealed_global (last_in numbers.now)) globals.now) }
{
    let mut out = Items::new(alloc);
    put_globals(alloc, numbers, globals, &mut out)?;
    Ok(out)
}

/// A function with its body, in the last numbers of its types.
pub fn sealed_function(
    alloc: Global,
    numbers: &LastNumbers,
    function: &Function,
) -> Result<Function, AllocError>
    ensures { IfOk result (λ r. function_of r
        ≡ sealed_function (last_in numbers.now) (function_of function.now)) }
{
    let (body, (name, variables)) = both_of(
        sealed_statements(function.body.as_slice(), alloc, numbers),
        both_of(
            Items::from_slice(alloc, function.name.as_slice()),
            sealed_variables(alloc, numbers, function.variables.as_slice()),
        ),
    )?;
    Ok(Function {
        name,
        result: last_of(numbers, function.result),
        params: function.params,
        variables,
        body,
        tokens: function.tokens,
    })
}

fn sealed_variables(
    alloc: Global,
    numbers: &LastNumbers,
    variables: &[u32],
) -> Result<Items<u32>, AllocError>
    ensures { IfOk result (λ r. r ≡ map (last_in numbers.now) variables.now) }
{
    let mut out = Items::new(alloc);
    put_variables(numbers, variables, &mut out)?;
    Ok(out)
}

fn put_variables(
    numbers: &LastNumbers,
    variables: &[u32],
    out: &mut Items<u32>,
) -> Result<(), AllocError>
    ensures { OnOk result (out.new ≡ out.old ++ map (last_in numbers.now) variables.now) }
{
    for variable in variables {
        out.push(numbers.find(*variable))?;
    }
    Ok(())
}

fn put_functions(
    alloc: Global,
    numbers: &LastNumbers,
    functions: &[Function],
    out: &mut Items<Function>,
) -> Result<(), AllocError>
    ensures { OnOk result (map function_of out.new ≡ map function_of out.old
        ++ map (sealed_function (last_in numbers.now)) (map function_of functions.now)) }
{
    for function in functions {
        let sealed = sealed_function(alloc, numbers, function)?;
        out.push(sealed)?;
    }
    Ok(())
}

fn put_globals(
    alloc: Global,
    numbers: &LastNumbers,
    globals: &[GlobalVariable],
    out: &mut Items<GlobalVariable>,
) -> Result<(), AllocError>
    ensures { OnOk result (out.new
        ≡ out.old ++ map (sealed_global (last_in numbers.now)) globals.now) }
{
    for global in globals {
        let sealed = sealed_global(alloc, numbers, global)?;
        out.push(sealed)?;
    }
    Ok(())
}
