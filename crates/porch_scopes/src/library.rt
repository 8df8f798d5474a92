//! The names of the library, with which the scope of the file begins.

ghost use Rattle.std.specs.Prelude.{◌≡◌, [], OnOk};
ghost use Rattle.porch_check.specs.Scopes.{library_names};

use crate::meaning::{Library, Meaning};
use crate::stack::ScopeStack;
use std::alloc::AllocError;

/// Declares the names of the library in a scope that declares nothing yet.
pub(crate) fn declare_library<'t>(stack: &mut ScopeStack<'t>) -> Result<(), AllocError>
    requires nothing { stack.old.inner.names ≡ [] }
    ensures { OnOk result (stack.new ≡ record {
      inner = record stack.old.inner { names = library_names };
      outer = stack.old.outer;
    }) }
{
    stack.declare(b"NULL", Meaning::Null)?;
    stack.declare(b"checkpoint", Meaning::Library(Library::Checkpoint))?;
    stack.declare(b"free", Meaning::Library(Library::Free))?;
    stack.declare(b"calloc", Meaning::Library(Library::Calloc))?;
    stack.declare(b"malloc", Meaning::Library(Library::Malloc))?;
    stack.declare(b"putchar", Meaning::Library(Library::Putchar))?;
    stack.declare(b"puts", Meaning::Library(Library::Puts))?;
    stack.declare(b"printf", Meaning::Library(Library::Printf))
}
