//! Lists the other way round, so that the first is taken first.

ghost use Rattle.std.specs.Prelude.{◌≡◌, ◌∷◌, ◌<◌, [], map, length, reverse, IfOk, MatchOption, OnSome};
ghost use Rattle.porch_arguments.specs.Views.{as_argument, left};

use crate::argument::Argument;
use sqlite_items::Items;
use std::alloc::{AllocError, Global};

/// Arguments, so that the first stands last.
#[tactic(auto, using(crate::proofs::Reversed::turned_back))]
pub fn turn<'t>(
    alloc: Global,
    arguments: Items<Argument<'t>>,
) -> Result<Items<Argument<'t>>, AllocError>
    ensures { IfOk result (λ turned. left turned ≡ map as_argument arguments.entry) }
{
    reverse_of(alloc, arguments)
}

/// The last comes first.
pub(crate) fn reverse_of<T: Drop>(alloc: Global, items: Items<T>) -> Result<Items<T>, AllocError>
    ensures { IfOk result (λ turned. turned ≡ reverse items) }
{
    let mut items = items;
    let mut turned = Items::new(alloc);
    while let Some(item) = items.pop() {
        turned.push(item)?;
    }
    Ok(turned)
}

/// Takes the first argument, which stands last.
#[tactic(auto, using(crate::proofs::Reversed::one_taken, crate::proofs::Reversed::none_taken, crate::proofs::Reversed::fewer))]
pub fn take_first<'t>(turned: &mut Items<Argument<'t>>) -> Option<Argument<'t>>
    ensures first { MatchOption result (left turned.old ≡ [])
        (λ a. left turned.old ≡ as_argument a ∷ left turned.new) }
    ensures fewer { OnSome result (length turned.new < length turned.old) }
{
    turned.pop()
}

/// How many arguments there are.
#[tactic(auto, using(crate::proofs::Reversed::as_many))]
pub fn count_of<'t>(turned: &Items<Argument<'t>>) -> usize
    ensures { result ≡ length (left turned.now) }
{
    turned.len()
}
