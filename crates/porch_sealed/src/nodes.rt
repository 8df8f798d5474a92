//! Nodes of expressions, made of their parts.

ghost use Rattle.std.specs.Prelude.{◌≡◌, IfOk, map};
ghost use Rattle.porch_typed.specs.Views.{expression_of, expressions_of, place_of, print_of, prints_of, steps_of};
ghost use Rattle.porch_typed.specs.Mirror.{address, all_of, allocate, any_of, assign, assign_by, bytes, call, choice, conversion, discard, first, increment, isnt, literal, member, member_of, number, pointee, print, put_character, put_literal, put_text, read, release, row, sequence, text, unary, whole};
ghost use Rattle.porch_sealed.specs.inside.Steps.{step_of};

use crate::pairs::{both_of, two_boxed};
use porch_typed::{Conversion, Direction, Expression, Operator, Place, Print, Unary};
use porch_types::Kind;
use sqlite_items::{Boxed, Items};
use std::alloc::{AllocError, Global};

pub(crate) fn read_of(ty: u32, place: Place) -> Expression
    ensures { expression_of result ≡ read ty (place_of place) }
{
    Expression::Read(ty, place)
}

pub(crate) fn whole_of(ty: u32, place: Place) -> Expression
    ensures { expression_of result ≡ whole ty (place_of place) }
{
    Expression::Whole(ty, place)
}

pub(crate) fn address_of(ty: u32, place: Place) -> Expression
    ensures { expression_of result ≡ address ty (place_of place) }
{
    Expression::Address(ty, place)
}

pub(crate) fn first_of(ty: u32, place: Place) -> Expression
    ensures { expression_of result ≡ first ty (place_of place) }
{
    Expression::First(ty, place)
}

pub(crate) fn increment_of(ty: u32, before: bool, way: Direction, place: Place) -> Expression
    ensures { expression_of result ≡ increment ty before way (place_of place) }
{
    Expression::Increment {
        ty,
        before,
        way,
        place,
    }
}

pub(crate) fn unary_of(
    alloc: Global,
    op: Unary,
    kind: Kind,
    e: Expression,
) -> Result<Expression, AllocError>
    ensures { IfOk result (λ r. expression_of r ≡ unary op kind (expression_of e)) }
{
    let e = Boxed::new(alloc, e)?;
    Ok(Expression::Unary(op, kind, e))
}

pub(crate) fn isnt_of(alloc: Global, e: Expression) -> Result<Expression, AllocError>
    ensures { IfOk result (λ r. expression_of r ≡ isnt (expression_of e)) }
{
    let e = Boxed::new(alloc, e)?;
    Ok(Expression::Isnt(e))
}

pub(crate) fn conversion_of(
    alloc: Global,
    kind: Kind,
    e: Expression,
) -> Result<Expression, AllocError>
    ensures { IfOk result (λ r. expression_of r ≡ conversion kind (expression_of e)) }
{
    let e = Boxed::new(alloc, e)?;
    Ok(Expression::Conversion(kind, e))
}

pub(crate) fn discard_of(alloc: Global, e: Expression) -> Result<Expression, AllocError>
    ensures { IfOk result (λ r. expression_of r ≡ discard (expression_of e)) }
{
    let e = Boxed::new(alloc, e)?;
    Ok(Expression::Discard(e))
}

pub(crate) fn member_of(
    alloc: Global,
    ty: u32,
    leaf: u32,
    e: Expression,
) -> Result<Expression, AllocError>
    ensures { IfOk result (λ r. expression_of r ≡ member_of ty leaf (expression_of e)) }
{
    let e = Boxed::new(alloc, e)?;
    Ok(Expression::MemberOf { ty, leaf, of: e })
}

pub(crate) fn put_character_of(alloc: Global, e: Expression) -> Result<Expression, AllocError>
    ensures { IfOk result (λ r. expression_of r ≡ put_character (expression_of e)) }
{
    let e = Boxed::new(alloc, e)?;
    Ok(Expression::PutCharacter(e))
}

pub(crate) fn put_text_of(alloc: Global, e: Expression) -> Result<Expression, AllocError>
    ensures { IfOk result (λ r. expression_of r ≡ put_text (expression_of e)) }
{
    let e = Boxed::new(alloc, e)?;
    Ok(Expression::PutText(e))
}

pub(crate) fn release_of(alloc: Global, e: Expression) -> Result<Expression, AllocError>
    ensures { IfOk result (λ r. expression_of r ≡ release (expression_of e)) }
{
    let e = Boxed::new(alloc, e)?;
    Ok(Expression::Release(e))
}

pub(crate) fn allocate_of(
    alloc: Global,
    ty: u32,
    zeroed: bool,
    e: Expression,
) -> Result<Expression, AllocError>
    ensures { IfOk result (λ r. expression_of r ≡ allocate ty zeroed (expression_of e)) }
{
    let e = Boxed::new(alloc, e)?;
    Ok(Expression::Allocate {
        ty,
        zeroed,
        count: e,
    })
}

pub(crate) fn assign_of(
    alloc: Global,
    ty: u32,
    place: Place,
    e: Expression,
) -> Result<Expression, AllocError>
    ensures { IfOk result (λ r. expression_of r ≡ assign ty (place_of place) (expression_of e)) }
{
    let e = Boxed::new(alloc, e)?;
    Ok(Expression::Assign(ty, place, e))
}

pub(crate) fn assign_by_of(
    alloc: Global,
    ty: u32,
    operator: Operator,
    place: Place,
    e: Expression,
) -> Result<Expression, AllocError>
    ensures { IfOk result (λ r. expression_of r
        ≡ assign_by ty operator (place_of place) (expression_of e)) }
{
    let e = Boxed::new(alloc, e)?;
    Ok(Expression::AssignBy(ty, operator, place, e))
}

pub(crate) fn row_of(
    alloc: Global,
    e: Expression,
    steps: Items<(Operator, Expression)>,
) -> Result<Expression, AllocError>
    ensures { IfOk result (λ r. expression_of r
        ≡ row (expression_of e) (steps_of (map step_of steps))) }
{
    let e = Boxed::new(alloc, e)?;
    Ok(Expression::Row(e, steps))
}

pub(crate) fn all_of(
    alloc: Global,
    e: Expression,
    more: Items<Expression>,
) -> Result<Expression, AllocError>
    ensures { IfOk result (λ r. expression_of r
        ≡ all_of (expression_of e) (expressions_of (map expression_of more))) }
{
    let e = Boxed::new(alloc, e)?;
    Ok(Expression::AllOf(e, more))
}

pub(crate) fn any_of(
    alloc: Global,
    e: Expression,
    more: Items<Expression>,
) -> Result<Expression, AllocError>
    ensures { IfOk result (λ r. expression_of r
        ≡ any_of (expression_of e) (expressions_of (map expression_of more))) }
{
    let e = Boxed::new(alloc, e)?;
    Ok(Expression::AnyOf(e, more))
}

pub(crate) fn sequence_of(
    alloc: Global,
    e: Expression,
    more: Items<Expression>,
) -> Result<Expression, AllocError>
    ensures { IfOk result (λ r. expression_of r
        ≡ sequence (expression_of e) (expressions_of (map expression_of more))) }
{
    let e = Boxed::new(alloc, e)?;
    Ok(Expression::Sequence(e, more))
}

pub(crate) fn call_of(function: u32, arguments: Items<Expression>) -> Expression
    ensures { expression_of result ≡ call function (expressions_of (map expression_of arguments)) }
{
    Expression::Call(function, arguments)
}

pub(crate) fn print_all_of(pieces: Items<Print>) -> Expression
    ensures { expression_of result ≡ print (prints_of (map print_of pieces)) }
{
    Expression::Print(pieces)
}

pub(crate) fn literal_of(alloc: Global, shown: &[u8]) -> Result<Expression, AllocError>
    ensures { IfOk result (λ r. expression_of r ≡ put_literal shown.now) }
{
    Ok(Expression::PutLiteral(Items::from_slice(alloc, shown)?))
}

pub(crate) fn choice_of(
    alloc: Global,
    ty: Option<u32>,
    condition: Expression,
    chosen: Expression,
    other: Expression,
) -> Result<Expression, AllocError>
    ensures { IfOk result (λ r. expression_of r
        ≡ choice ty (expression_of condition) (expression_of chosen) (expression_of other)) }
{
    let (condition, both) = (
        Boxed::new(alloc, condition),
        two_boxed(alloc, chosen, other),
    );
    let (condition, (chosen, other)) = both_of(condition, both)?;
    Ok(Expression::Choice {
        ty,
        condition,
        chosen,
        other,
    })
}

pub(crate) fn pointee_of(alloc: Global, e: Expression) -> Result<Place, AllocError>
    ensures { IfOk result (λ r. place_of r ≡ pointee (expression_of e)) }
{
    let e = Boxed::new(alloc, e)?;
    Ok(Place::Pointee(e))
}

pub(crate) fn part_of(alloc: Global, leaf: u32, place: Place) -> Result<Place, AllocError>
    ensures { IfOk result (λ r. place_of r ≡ member leaf (place_of place)) }
{
    let place = Boxed::new(alloc, place)?;
    Ok(Place::Member(leaf, place))
}

pub(crate) fn bytes_of(alloc: Global, shown: &[u8]) -> Result<Print, AllocError>
    ensures { IfOk result (λ r. print_of r ≡ bytes shown.now) }
{
    Ok(Print::Bytes(Items::from_slice(alloc, shown)?))
}

pub(crate) fn shown_literal_of(alloc: Global, shown: &[u8]) -> Result<Print, AllocError>
    ensures { IfOk result (λ r. print_of r ≡ literal shown.now) }
{
    Ok(Print::Literal(Items::from_slice(alloc, shown)?))
}

pub(crate) fn number_of(how: Conversion, e: Expression) -> Print
    ensures { print_of result ≡ number how (expression_of e) }
{
    Print::Number(how, e)
}

pub(crate) fn text_of(e: Expression) -> Print
    ensures { print_of result ≡ text (expression_of e) }
{
    Print::Text(e)
}
