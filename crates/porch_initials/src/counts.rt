//! Types that get their count from an initialiser.

ghost use Rattle.std.specs.Prelude.{◌≡◌, ◌*◌, nat_le, Ok, IfOk, IfErr, OnOk};
ghost use Rattle.porch_types.specs.Leaves as limits;
ghost use Rattle.porch_check.specs.Shapes.{shape_of};
ghost use Rattle.porch_check.specs.Initialisers.{counted_type as counted_type_of};
ghost use Rattle.porch_scopes.specs.Known.{scopes_of};
ghost use Rattle.porch_scopes.specs.Answers.{IsRefusalOf};

use porch_lex::{Refusal, Rule, SourceFault};
use porch_scopes::Scopes;
use porch_shape::Shape;

/// The most leaves that a type may have.
const MOST_LEAVES: u64 = 1_048_576;

/// The type of an object behind its initialiser: an array without a count has the count that this gives.
/// `first` is the place of the literal or of the first item.
pub fn counted_type<'t>(
    scopes: &mut Scopes<'t>,
    first: u32,
    shape: u32,
    count: u64,
) -> Result<u32, SourceFault>
    ensures typed { IfOk result (λ n. counted_type_of first
        (shape_of (scopes_of scopes.old).shapes shape) shape count (scopes_of scopes.old)
        ≡ Ok (n, scopes_of scopes.new)) }
    ensures outer { OnOk result ((scopes_of scopes.new).outer ≡ (scopes_of scopes.old).outer) }
    ensures refused { IfErr result (λ e. IsRefusalOf e (counted_type_of first
        (shape_of (scopes_of scopes.old).shapes shape) shape count (scopes_of scopes.old))) }
{
    match scopes.shapes.shape(shape) {
        Shape::Array(of, None) => {
            let of = *of;
            if is_small(count, scopes.shapes.size(of)) {
                Ok(scopes.array(of, Some(count))?)
            } else {
                Err(SourceFault::Refused(Refusal {
                    at: first,
                    rule: Rule::TooLarge,
                }))
            }
        }
        Shape::Array(_, Some(_)) => Ok(shape),
        Shape::Void | Shape::Whole(_) | Shape::Pointer(_) => Ok(shape),
        Shape::Structure(_) | Shape::Function(_, _) => Ok(shape),
    }
}

fn is_small(count: u64, leaves: u64) -> bool
    ensures { result ≡ nat_le (count * leaves) limits.MOST_LEAVES }
{
    match count.checked_mul(leaves) {
        Some(all) => all <= MOST_LEAVES,
        None => false,
    }
}
