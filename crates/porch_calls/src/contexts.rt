//! Where the arguments of a call stand.

ghost use Rattle.std.specs.Prelude.{◌≡◌};
ghost use Rattle.porch_check.specs.Calls.{argument_context, library_context};
ghost use Rattle.porch_leaves.specs.Contexts.{as_context};
ghost use Rattle.porch_operands.specs.Views.{as_form, as_library};

use porch_leaves::context::Context;
use porch_operands::{Form, Library};

/// Where the argument of a number, from 0, stands among so many, by what is called.
pub fn argument_context<'t>(form: &Form<'t>, count: usize, number: usize) -> Context
    ensures { as_context result ≡ argument_context (as_form form.now) count number }
{
    match form {
        Form::LibraryCallee(library) => library_context(*library, count, number),
        Form::Operand(_) => Context::Plain,
        Form::Place(_, _) => Context::Plain,
        Form::Literal(_) => Context::Plain,
        Form::Size(_) => Context::Plain,
        Form::Sized(_, _) => Context::Plain,
        Form::Callee(_, _) => Context::Plain,
    }
}

fn library_context(library: Library, count: usize, number: usize) -> Context
    ensures { as_context result ≡ library_context (as_library library) count number }
{
    match library {
        Library::Printf => Context::Shown,
        Library::Puts => Context::Shown,
        Library::Malloc => {
            if count == 1 {
                Context::AsAllocation
            } else {
                Context::Plain
            }
        }
        Library::Calloc => {
            if count == 2 && number == 1 {
                Context::AsSize
            } else {
                Context::Plain
            }
        }
        Library::Putchar => Context::Plain,
        Library::Free => Context::Plain,
        Library::Checkpoint => Context::Plain,
    }
}
