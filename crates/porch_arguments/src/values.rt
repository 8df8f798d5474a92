//! The values of arguments.

ghost use Rattle.std.specs.Prelude.{◌≡◌, map, Ok, IfOk, IfErr};
ghost use Rattle.porch_check.specs.Calls.{argument_values};
ghost use Rattle.porch_nodes.specs.Answers.{Refuses};
ghost use Rattle.porch_arguments.specs.Views.{as_argument, as_valued, left};
ghost use Rattle.porch_arguments.specs.inside.Values.{argument_value};

use crate::argument::{Argument, Valued};
use crate::turned::take_first;
use porch_access::reading::value_in;
use porch_lex::SourceFault;
use porch_operands::Table;
use sqlite_items::Items;
use std::alloc::Global;

/// The value of an argument. Its type may be that of a new pointer.
pub(crate) fn value_of<'t, T: Table>(
    argument: Argument<'t>,
    table: &mut T,
) -> Result<Valued, SourceFault>
    ensures made { IfOk result (λ v. argument_value (as_argument argument.entry)
        (T.scopes table.old) ≡ Ok (as_valued v, T.scopes table.new)) }
    ensures refused { IfErr result (λ f. Refuses f
        (argument_value (as_argument argument.entry) (T.scopes table.old))) }
{
    let at = argument.at;
    let value = value_in(at, argument.form, table)?;
    Ok(Valued { at, value })
}

/// The values of arguments, from left to right. The first argument stands last.
pub(crate) fn values_of<'t, T: Table>(
    alloc: Global,
    turned: Items<Argument<'t>>,
    table: &mut T,
) -> Result<Items<Valued>, SourceFault>
    ensures made { IfOk result (λ xs. argument_values (left turned.entry)
        (T.scopes table.old) ≡ Ok (map as_valued xs, T.scopes table.new)) }
    ensures refused { IfErr result (λ f. Refuses f
        (argument_values (left turned.entry) (T.scopes table.old))) }
{
    let mut turned = turned;
    let mut values = Items::new(alloc);
    'arguments: while let Some(argument) = take_first(&mut turned) {
        values.push(value_of(argument, table)?)?;
    }
    Ok(values)
}
