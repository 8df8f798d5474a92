//! What isn't deep of a program, in the last numbers of its types.

ghost use Rattle.std.specs.Prelude.{◌≡◌, IfOk};
ghost use Rattle.std.specs.Option.{option_map};
ghost use Rattle.porch_check.specs.Sealing.{sealed_global, sealed_operator};
ghost use Rattle.porch_sealing.specs.Numbers.{last_in};

use crate::numbers::LastNumbers;
use porch_typed::{GlobalVariable, Operator};
use sqlite_items::Items;
use std::alloc::{AllocError, Global};

/// The last number of a type, where there is one.
pub fn last_of(numbers: &LastNumbers, ty: Option<u32>) -> Option<u32>
    ensures { result ≡ option_map (last_in numbers.now) ty }
{
    match ty {
        Some(ty) => Some(numbers.find(ty)),
        None => None,
    }
}

/// An operator, in the last number of its type.
pub fn sealed_operator(numbers: &LastNumbers, operator: Operator) -> Operator
    ensures { result ≡ sealed_operator (last_in numbers.now) operator }
{
    match operator {
        Operator::Arithmetic(op, kind) => Operator::Arithmetic(op, kind),
        Operator::Shift(op, kind) => Operator::Shift(op, kind),
        Operator::Compare(comparison, kind) => Operator::Compare(comparison, kind),
        Operator::ComparePointers(comparison, ty) => {
            Operator::ComparePointers(comparison, numbers.find(ty))
        }
        Operator::Forward(ty) => Operator::Forward(numbers.find(ty)),
        Operator::Back(ty) => Operator::Back(numbers.find(ty)),
        Operator::ForwardOf(ty) => Operator::ForwardOf(numbers.find(ty)),
        Operator::Difference(ty) => Operator::Difference(numbers.find(ty)),
    }
}

/// A global, in the last number of its type, with what it begins with.
pub fn sealed_global(
    alloc: Global,
    numbers: &LastNumbers,
    global: &GlobalVariable,
) -> Result<GlobalVariable, AllocError>
    ensures { IfOk result (λ g. g ≡ sealed_global (last_in numbers.now) global.now) }
{
    let fills = Items::from_slice(alloc, global.fills.as_slice())?;
    Ok(GlobalVariable {
        ty: numbers.find(global.ty),
        fills,
    })
}
