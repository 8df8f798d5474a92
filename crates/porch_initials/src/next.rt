//! Which part of an object the next item is for.

ghost use Rattle.std.specs.Prelude.{◌≡◌, ℕ, suc, ◌+◌, ◌-◌, ◌<◌, ◌≤◌, ◌∷◌, ◌&&◌, not, length, get_or, take, None, IfOk, OnOk};
ghost use Rattle.std.specs.Option.{option_map};
ghost use Rattle.porch_check.specs.Shapes.{shape_of};
ghost use Rattle.porch_check.specs.Initialisers.{down_to, is_aggregate as is_aggregate_shape, is_char_array as is_char_array_shape, next_in, opened};
ghost use Rattle.porch_initials.specs.Views.{as_opened, next_at, next_with, opens_of};
ghost use Rattle.porch_initials.specs.inside.Ways.{IsPlaceIn, down_further, gone_on, next_from, or_further};

use crate::fills::is_char_array;
pub use crate::opened::Element;
use crate::opened::{Opened, is_aggregate, next_element};
use porch_scopes::Shapes;
use std::alloc::AllocError;

/// The part that the next item is for: the next element of the innermost aggregate that isn't full. What is
/// full is closed, unless all are.
pub fn next_part<'t>(
    shapes: &Shapes<'t>,
    opens: &mut Vec<Opened>,
) -> Result<Option<Element>, AllocError>
    ensures found { IfOk result (λ e. next_in shapes.now (opens_of opens.old.items)
        ≡ next_with e (opens_of opens.new.items)) }
    ensures full { IfOk result (λ e. e ≡ None → opens.new.items ≡ opens.old.items) }
{
    match innermost(shapes, opens)? {
        None => Ok(None),
        Some((place, part)) => {
            take_element(opens, place)?;
            Ok(Some(part))
        }
    }
}

// The innermost aggregate that isn't full, by its place, and its next element.
fn innermost<'t>(
    shapes: &Shapes<'t>,
    opens: &[Opened],
) -> Result<Option<(usize, Element)>, AllocError>
    ensures found { IfOk result (λ r. next_in shapes.now (opens_of opens.now)
        ≡ next_from r opens.now) }
    ensures within { IfOk result (λ r. IsPlaceIn r opens.now) }
{
    let mut left = opens.len();
    while left > 0 {
        match part_before(shapes, opens, left)? {
            Some(part) => return Ok(Some((left - 1, part))),
            None => {}
        }
        left -= 1;
    }
    Ok(None)
}

// The next element of the aggregate in front of a place, if it isn't full.
fn part_before<'t>(
    shapes: &Shapes<'t>,
    opens: &[Opened],
    place: usize,
) -> Result<Option<Element>, AllocError>
    requires some { 0 < place }
    requires within { place ≤ length opens.now }
    ensures { IfOk result (λ e. next_in shapes.now (opens_of (take place opens.now))
        ≡ or_further e (place - 1) opens.now
        (next_in shapes.now (opens_of (take (place - 1) opens.now)))) }
{
    next_element(shapes, opened_at(opens, place - 1))
}

fn opened_at(opens: &[Opened], place: usize) -> Opened
    requires { place < length opens.now }
    ensures { result ≡ get_or opens.now place result }
{
    opens[place]
}

// Closes what is full, and goes one element on.
fn take_element(opens: &mut Vec<Opened>, place: usize) -> Result<(), AllocError>
    requires { place < length opens.old.items }
    ensures { OnOk result (opens_of opens.new.items
        ≡ gone_on (opens_of (take (place + 1) opens.old.items))) }
{
    let innermost = opens[place];
    let more = one_further(innermost)?;
    opens.truncate(place);
    opens.push(more)?;
    Ok(())
}

fn one_further(aggregate: Opened) -> Result<Opened, AllocError>
    ensures { IfOk result (λ o. as_opened o
        ≡ record (as_opened aggregate) { next = suc aggregate.next }) }
{
    match aggregate.next.checked_add(1) {
        Some(next) => Ok(Opened {
            shape: aggregate.shape,
            next,
            leaf: aggregate.leaf,
        }),
        None => Err(AllocError),
    }
}

/// Goes down from a part to where an item without braces is put: a scalar, or for a literal an array of
/// char. No type is deeper than there are types.
pub fn go_down<'t>(
    shapes: &Shapes<'t>,
    is_text: bool,
    opens: &mut Vec<Opened>,
    part: Element,
) -> Result<Element, AllocError>
    ensures { IfOk result (λ e. down_to (length shapes.now.rows) is_text shapes.now
        (next_at part (opens_of opens.old.items)) ≡ next_at e (opens_of opens.new.items)) }
{
    let mut part = part;
    let mut left = shapes.len();
    while left > 0 {
        match go_one_down(shapes, is_text, opens, part)? {
            None => return Ok(part),
            Some(next) => part = next,
        }
        left -= 1;
    }
    Ok(part)
}

// Goes down once, where an item without braces begins within the part.
fn go_one_down<'t>(
    shapes: &Shapes<'t>,
    is_text: bool,
    opens: &mut Vec<Opened>,
    part: Element,
) -> Result<Option<Element>, AllocError>
    ensures { IfOk result (λ e. (depth : ℕ)
        → down_to (suc depth) is_text shapes.now (next_at part (opens_of opens.old.items))
        ≡ down_further e depth is_text shapes.now part (opens_of opens.new.items)) }
{
    if goes_down(shapes, part.shape, is_text) {
        first_element(shapes, opens, part)
    } else {
        Ok(None)
    }
}

// Whether a part is an aggregate that an item without braces begins within.
fn goes_down<'t>(shapes: &Shapes<'t>, shape: u32, is_text: bool) -> bool
    ensures { result ≡ (is_aggregate_shape (shape_of shapes.now shape)
        && not (is_text && is_char_array_shape (shape_of shapes.now shape))) }
{
    let shape = shapes.shape(shape);
    is_aggregate(shape) && !(is_text && is_char_array(shape))
}

// The first part of an aggregate that is opened.
fn first_element<'t>(
    shapes: &Shapes<'t>,
    opens: &mut Vec<Opened>,
    part: Element,
) -> Result<Option<Element>, AllocError>
    ensures found { IfOk result (λ e.
        next_in shapes.now (opened part.shape part.leaf ∷ opens_of opens.old.items)
        ≡ next_with e (opens_of opens.new.items)) }
    ensures full { IfOk result (λ e. e ≡ None
        → opens_of opens.new.items ≡ opens_of opens.old.items) }
{
    opens.push(Opened {
        shape: part.shape,
        next: 0,
        leaf: part.leaf,
    })?;
    match next_part(shapes, opens)? {
        Some(next) => Ok(Some(next)),
        None => {
            opens.pop();
            Ok(None)
        }
    }
}
