//! Two trees, as what a node holds of them.

ghost use Rattle.std.specs.Prelude.{◌≡◌, ◌∷◌, [], IfOk};

use porch_typed::Expression;
use sqlite_items::{Boxed, Items};
use std::alloc::{AllocError, Global};

/// A first tree, and a list of one behind it.
pub(crate) fn pair_of(
    alloc: Global,
    first: Expression,
    second: Expression,
) -> Result<(Boxed<Expression>, Items<Expression>), AllocError>
    ensures first { IfOk result (λ p. p.0 ≡ first) }
    ensures second { IfOk result (λ p. p.1 ≡ second ∷ []) }
{
    let mut more = Items::new(alloc);
    more.push(second)?;
    let first = Boxed::new(alloc, first)?;
    Ok((first, more))
}
