//! What becomes of the values of arguments where parameters are wanted.

ghost use Rattle.std.specs.Prelude.{◌≡◌, map, Ok, IfOk, IfErr};
ghost use Rattle.porch_typed.specs.Views.{expression_of, expressions_of};
ghost use Rattle.porch_check.specs.Calls.{fitted_all};
ghost use Rattle.porch_check.specs.Operands.{fitted};
ghost use Rattle.porch_operands.specs.Views.{as_typed};
ghost use Rattle.porch_nodes.specs.Answers.{Refuses};
ghost use Rattle.porch_arguments.specs.Views.{as_valued};

use crate::argument::Valued;
use crate::turned::reverse_of;
use porch_lex::SourceFault;
use porch_operands::agree::fit;
use porch_operands::{Table, Typed};
use porch_rows::{become_of, drop_tree};
use porch_typed::Expression;
use sqlite_items::Items;
use std::alloc::Global;

/// The values, each as its parameter wants it, as far as there are both.
pub(crate) fn fit_all<T: Table>(
    alloc: Global,
    params: &[u32],
    values: Items<Valued>,
    table: &T,
) -> Result<Items<Expression>, SourceFault>
    ensures made { IfOk result (λ es.
        fitted_all params.now (map as_valued values) (T.scopes table.now)
        ≡ Ok (expressions_of (map expression_of es))) }
    ensures refused { IfErr result (λ f. Refuses f
        (fitted_all params.now (map as_valued values) (T.scopes table.now))) }
{
    let mut turned = reverse_of(alloc, values)?;
    let mut fitted = Items::new(alloc);
    for param in params {
        match turned.pop() {
            Some(value) => fitted.push(fit_value(alloc, value.at, *param, value.value, table)?)?,
            None => return Ok(fitted),
        }
    }
    Ok(fitted)
}

/// A value, as a type wants it.
pub fn fit_value<T: Table>(
    alloc: Global,
    at: u32,
    target: u32,
    value: Typed,
    table: &T,
) -> Result<Expression, SourceFault>
    ensures made { IfOk result (λ e.
        fitted at target (as_typed value) (T.scopes table.now) ≡ Ok (expression_of e)) }
    ensures refused { IfErr result (λ f. Refuses f
        (fitted at target (as_typed value) (T.scopes table.now))) }
{
    match fit(at, target, value.sort, table) {
        Ok(becomes) => Ok(become_of(alloc, value.tree, becomes)?),
        Err(refusal) => {
            drop_tree(value.tree);
            Err(SourceFault::Refused(refusal))
        }
    }
}
