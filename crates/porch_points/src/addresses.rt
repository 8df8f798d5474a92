//! The address of a word.

ghost use Rattle.std.specs.Prelude.{◌≡◌, ◌↔◌, ◌<◌, ◌≤◌, ◌+◌, ◌*◌, ◌/◌, ◌^◌, ℕ, length, Some, Ok, if◌then◌else◌};
ghost use Rattle.porch_types.specs.Rows.{IsSubobject};
ghost use Rattle.porch_points.specs.Plans.{IsPlan, end_of};
ghost use Rattle.porch_points.specs.Words.{IsAddressOf, NameOne, NamesIn};

use crate::named::named_by_place;
use crate::plan::{DEAD, Plan};
use porch_find::{Root, ends_row, subobjects_end_inside};
use porch_metrics::{Metrics, ucf_is_a_layout};
use porch_types::rows_lie_inside;

/// The word is neither null nor dead, and names nothing.
#[derive(Clone, Copy, Debug, PartialEq, Eq)]
pub struct BadWord;

/// The address of a pointer to type `pointee`, given by its word: 0 for the word 0, `DEAD` for
/// `DEAD`, and for another one the address of the subobject or unshared end that it names. The
/// objects may stand at any addresses. It takes no memory.
pub fn to_address(plan: &Plan, metrics: &Metrics, word: u64, pointee: u32) -> Result<u64, BadWord>
    requires pointee { pointee < length metrics.now.types }
    requires plan { IsPlan metrics.now.layout metrics.now.types plan.now.addresses.items
        plan.now.places.items }
    ensures { (address : ℕ) → (result ≡ Ok address) ↔ IsAddressOf metrics.now.layout
        metrics.now.types plan.now.addresses.items plan.now.places.items pointee word address }
{
    let _layout = metrics.layout();
    ucf_is_a_layout();
    subobjects_end_inside();
    if word == 0 {
        return Ok(0);
    }
    if word == DEAD {
        return Ok(DEAD);
    }
    if word == 1 {
        return Err(BadWord);
    }
    match address_of(plan, metrics, word, pointee) {
        Some(address) => Ok(address),
        None => Err(BadWord),
    }
}

/// The address of what a word names.
fn address_of(plan: &Plan, metrics: &Metrics, word: u64, pointee: u32) -> Option<u64>
    requires pointee { pointee < length metrics.now.types }
    requires plan { IsPlan metrics.now.layout metrics.now.types plan.now.addresses.items
        plan.now.places.items }
    requires named { 2 ≤ word }
    ensures { (address : ℕ) → (result ≡ Some address) ↔ NameOne metrics.now.layout
        metrics.now.types plan.now.addresses.items plan.now.places.items pointee address word }
{
    let past = is_odd(word);
    match named_by_place(&plan.places, metrics, word / 2 - 1, pointee) {
        None => None,
        Some(begun) => {
            let object = plan.addresses.get(begun.number);
            address_at(metrics, object, begun.leaf, past, pointee)
        }
    }
}

/// The address of a subobject or of its end, where that isn't shared.
fn address_at(metrics: &Metrics, object: Root, leaf: u64, past: bool, pointee: u32) -> Option<u64>
    requires pointee { pointee < length metrics.now.types }
    requires known { object.ty < length metrics.now.types }
    requires few { object.count < 2 ^ 32 }
    requires ends { end_of metrics.now.layout metrics.now.types object < 2 ^ 31 }
    requires sub { IsSubobject metrics.now.types object.ty object.count leaf pointee }
    ensures { (address : ℕ) → (result ≡ Some address) ↔ NamesIn metrics.now.layout
        metrics.now.types object pointee address (record { leaf = leaf; past = past }) }
{
    let _layout = metrics.layout();
    let _leaves = metrics.types().leaves(object.ty);
    rows_lie_inside();
    subobjects_end_inside();
    let place = object.at + metrics.place(object.ty, leaf);
    if past {
        if ends_row(metrics, object.ty, u64::from(object.count), leaf, pointee) {
            Some(place + metrics.size(pointee))
        } else {
            None
        }
    } else {
        Some(place)
    }
}

/// Whether the last bit of a word is set.
pub(crate) fn is_odd(word: u64) -> bool
    ensures { word ≡ 2 * (word / 2) + (if result then 1 else 0) }
{
    word % 2 == 1
}
