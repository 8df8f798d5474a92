//! Structs in front of their braces, with a tag or without one.

ghost use Rattle.std.specs.Prelude.{◌≡◌, Ok, IfOk, IfErr, OnOk};
ghost use Rattle.std.specs.Option.{option_map};
ghost use Rattle.porch_check.specs.Declarations.{begin_struct as begin_struct_of};
ghost use Rattle.porch_scopes.specs.Known.{scopes_of};
ghost use Rattle.porch_scopes.specs.Answers.{IsRefusalOf};
ghost use Rattle.porch_names.specs.Views.{as_name};

use crate::name::Name;
use porch_lex::SourceFault;
use porch_scopes::{Scopes, begin_struct};

/// The struct in front of a brace.
pub fn begin_any_struct<'t>(
    scopes: &mut Scopes<'t>,
    tag: Option<Name<'t>>,
) -> Result<u32, SourceFault>
    ensures typed { IfOk result (λ n. begin_struct_of (option_map as_name tag.entry)
        (scopes_of scopes.old) ≡ Ok (n, scopes_of scopes.new)) }
    ensures refused { IfErr result (λ e. IsRefusalOf e
        (begin_struct_of (option_map as_name tag.entry) (scopes_of scopes.old))) }
{
    match tag {
        Some(tag) => begin_struct(scopes, tag.at, tag.bytes),
        None => Ok(scopes.shapes.structure(false)?),
    }
}
