//! Two values, where both could be made. What was made is let go where the other wasn't, so that the
//! functions that go over a tree own nothing at their exits.

ghost use Rattle.std.specs.Prelude.{◌≡◌, Ok, IfOk};

use porch_typed::Expression;
use sqlite_items::Boxed;
use std::alloc::{AllocError, Global};

pub(crate) fn both_of<A: Drop, B: Drop>(
    a: Result<A, AllocError>,
    b: Result<B, AllocError>,
) -> Result<(A, B), AllocError>
    ensures first { IfOk result (λ r. a ≡ Ok r.0) }
    ensures second { IfOk result (λ r. b ≡ Ok r.1) }
{
    match a {
        Ok(a) => match b {
            Ok(b) => Ok((a, b)),
            Err(e) => Err(e),
        },
        Err(e) => Err(e),
    }
}

pub(crate) fn two_boxed(
    alloc: Global,
    a: Expression,
    b: Expression,
) -> Result<(Boxed<Expression>, Boxed<Expression>), AllocError>
    ensures first { IfOk result (λ r. r.0 ≡ a) }
    ensures second { IfOk result (λ r. r.1 ≡ b) }
{
    both_of(Boxed::new(alloc, a), Boxed::new(alloc, b))
}
