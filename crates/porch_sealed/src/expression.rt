//! Expressions in the last numbers of their types.

ghost use Rattle.std.specs.Prelude.{◌≡◌, ◌++◌, IfOk, OnOk, map};
ghost use Rattle.porch_typed.specs.Views.{expression_of, expressions_of, place_of, print_of, prints_of, steps_of};
ghost use Rattle.porch_check.specs.Sealing.{sealed, sealed_all, sealed_place, sealed_print, sealed_prints, sealed_steps};
ghost use Rattle.porch_sealing.specs.Numbers.{last_in};
ghost use Rattle.porch_sealed.specs.inside.Steps.{sealed_step, step_of};

use crate::nodes::{
    address_of, all_of, allocate_of, any_of, assign_by_of, assign_of, bytes_of, call_of, choice_of,
    conversion_of, discard_of, first_of, increment_of, isnt_of, literal_of, member_of, number_of,
    part_of, pointee_of, print_all_of, put_character_of, put_text_of, read_of, release_of, row_of,
    sequence_of, shown_literal_of, text_of, unary_of, whole_of,
};
use crate::pairs::both_of;
use porch_sealing::{LastNumbers, last_of, sealed_operator};
use porch_typed::{Expression, Operator, Place, Print};
use sqlite_items::Items;
use std::alloc::{AllocError, Global};

/// An expression, in the last numbers of its types.
#[cycle(expressions)]
pub fn sealed_expression(
    e: &Expression,
    alloc: Global,
    numbers: &LastNumbers,
) -> Result<Expression, AllocError>
    ensures { IfOk result (λ r. expression_of r
        ≡ sealed (last_in numbers.now) (expression_of e.now)) }
{
    match e {
        Expression::Constant(kind, z) => Ok(Expression::Constant(*kind, *z)),
        Expression::NullPointer(ty) => Ok(Expression::NullPointer(numbers.find(*ty))),
        Expression::Read(ty, place) => Ok(read_of(
            numbers.find(*ty),
            sealed_place(place, alloc, numbers)?,
        )),
        Expression::Whole(ty, place) => Ok(whole_of(
            numbers.find(*ty),
            sealed_place(place, alloc, numbers)?,
        )),
        Expression::Address(ty, place) => Ok(address_of(
            numbers.find(*ty),
            sealed_place(place, alloc, numbers)?,
        )),
        Expression::First(ty, place) => Ok(first_of(
            numbers.find(*ty),
            sealed_place(place, alloc, numbers)?,
        )),
        Expression::Row(first, steps) => {
            let (first, steps) = both_of(
                sealed_expression(first.get(), alloc, numbers),
                sealed_steps(steps.as_slice(), alloc, numbers),
            )?;
            Ok(row_of(alloc, first, steps)?)
        }
        Expression::AllOf(first, more) => {
            let (first, more) = both_of(
                sealed_expression(first.get(), alloc, numbers),
                sealed_expressions(more.as_slice(), alloc, numbers),
            )?;
            Ok(all_of(alloc, first, more)?)
        }
        Expression::AnyOf(first, more) => {
            let (first, more) = both_of(
                sealed_expression(first.get(), alloc, numbers),
                sealed_expressions(more.as_slice(), alloc, numbers),
            )?;
            Ok(any_of(alloc, first, more)?)
        }
        Expression::Unary(op, kind, of) => {
            let of = sealed_expression(of.get(), alloc, numbers)?;
            Ok(unary_of(alloc, *op, *kind, of)?)
        }
        Expression::Isnt(of) => {
            let of = sealed_expression(of.get(), alloc, numbers)?;
            Ok(isnt_of(alloc, of)?)
        }
        Expression::Choice {
            ty,
            condition,
            chosen,
            other,
        } => {
            let (condition, (chosen, other)) = both_of(
                sealed_expression(condition.get(), alloc, numbers),
                both_of(
                    sealed_expression(chosen.get(), alloc, numbers),
                    sealed_expression(other.get(), alloc, numbers),
                ),
            )?;
            Ok(choice_of(alloc, last_of(numbers, *ty), condition, chosen, other)?)
        }
        Expression::Sequence(first, more) => {
            let (first, more) = both_of(
                sealed_expression(first.get(), alloc, numbers),
                sealed_expressions(more.as_slice(), alloc, numbers),
            )?;
            Ok(sequence_of(alloc, first, more)?)
        }
        Expression::Assign(ty, place, value) => {
            let (place, value) = both_of(
                sealed_place(place, alloc, numbers),
                sealed_expression(value.get(), alloc, numbers),
            )?;
            Ok(assign_of(alloc, numbers.find(*ty), place, value)?)
        }
        Expression::AssignBy(ty, operator, place, value) => {
            let (place, value) = both_of(
                sealed_place(place, alloc, numbers),
                sealed_expression(value.get(), alloc, numbers),
            )?;
            let operator = sealed_operator(numbers, *operator);
            Ok(assign_by_of(alloc, numbers.find(*ty), operator, place, value)?)
        }
        Expression::Increment {
            ty,
            before,
            way,
            place,
        } => Ok(increment_of(
            numbers.find(*ty),
            *before,
            *way,
            sealed_place(place, alloc, numbers)?,
        )),
        Expression::Conversion(kind, of) => {
            let of = sealed_expression(of.get(), alloc, numbers)?;
            Ok(conversion_of(alloc, *kind, of)?)
        }
        Expression::Discard(of) => {
            let of = sealed_expression(of.get(), alloc, numbers)?;
            Ok(discard_of(alloc, of)?)
        }
        Expression::MemberOf { ty, leaf, of } => {
            let of = sealed_expression(of.get(), alloc, numbers)?;
            Ok(member_of(alloc, numbers.find(*ty), *leaf, of)?)
        }
        Expression::Call(function, arguments) => Ok(call_of(
            *function,
            sealed_expressions(arguments.as_slice(), alloc, numbers)?,
        )),
        Expression::PutCharacter(of) => {
            let of = sealed_expression(of.get(), alloc, numbers)?;
            Ok(put_character_of(alloc, of)?)
        }
        Expression::PutText(of) => {
            let of = sealed_expression(of.get(), alloc, numbers)?;
            Ok(put_text_of(alloc, of)?)
        }
        Expression::PutLiteral(bytes) => Ok(literal_of(alloc, bytes.as_slice())?),
        Expression::Print(pieces) => Ok(print_all_of(sealed_prints(
            pieces.as_slice(),
            alloc,
            numbers,
        )?)),
        Expression::Allocate { ty, zeroed, count } => {
            let count = sealed_expression(count.get(), alloc, numbers)?;
            Ok(allocate_of(alloc, numbers.find(*ty), *zeroed, count)?)
        }
        Expression::Release(of) => {
            let of = sealed_expression(of.get(), alloc, numbers)?;
            Ok(release_of(alloc, of)?)
        }
        Expression::Checkpoint => Ok(Expression::Checkpoint),
    }
}

#[cycle(expressions)]
fn sealed_place(place: &Place, alloc: Global, numbers: &LastNumbers) -> Result<Place, AllocError>
    ensures { IfOk result (λ r. place_of r
        ≡ sealed_place (last_in numbers.now) (place_of place.now)) }
{
    match place {
        Place::Variable(variable) => Ok(Place::Variable(*variable)),
        Place::Global(global) => Ok(Place::Global(*global)),
        Place::Pointee(e) => {
            let e = sealed_expression(e.get(), alloc, numbers)?;
            Ok(pointee_of(alloc, e)?)
        }
        Place::Member(leaf, place) => {
            let place = sealed_place(place.get(), alloc, numbers)?;
            Ok(part_of(alloc, *leaf, place)?)
        }
    }
}

#[cycle(expressions)]
fn sealed_print(print: &Print, alloc: Global, numbers: &LastNumbers) -> Result<Print, AllocError>
    ensures { IfOk result (λ r. print_of r
        ≡ sealed_print (last_in numbers.now) (print_of print.now)) }
{
    match print {
        Print::Bytes(bytes) => Ok(bytes_of(alloc, bytes.as_slice())?),
        Print::Number(how, e) => Ok(number_of(*how, sealed_expression(e, alloc, numbers)?)),
        Print::Text(e) => Ok(text_of(sealed_expression(e, alloc, numbers)?)),
        Print::Literal(bytes) => Ok(shown_literal_of(alloc, bytes.as_slice())?),
    }
}

#[cycle(expressions)]
fn sealed_expressions(
    es: &[Expression],
    alloc: Global,
    numbers: &LastNumbers,
) -> Result<Items<Expression>, AllocError>
    ensures { IfOk result (λ r. expressions_of (map expression_of r)
        ≡ sealed_all (last_in numbers.now) (expressions_of (map expression_of es.now))) }
{
    let mut out = Items::new(alloc);
    put_expressions(es, alloc, numbers, &mut out)?;
    Ok(out)
}

#[cycle(expressions)]
fn put_expressions(
    es: &[Expression],
    alloc: Global,
    numbers: &LastNumbers,
    out: &mut Items<Expression>,
) -> Result<(), AllocError>
    ensures { OnOk result (map expression_of out.new ≡ map expression_of out.old
        ++ map (sealed (last_in numbers.now)) (map expression_of es.now)) }
{
    for e in es {
        let sealed = sealed_expression(e, alloc, numbers)?;
        out.push(sealed)?;
    }
    Ok(())
}

#[cycle(expressions)]
fn sealed_steps(
    steps: &[(Operator, Expression)],
    alloc: Global,
    numbers: &LastNumbers,
) -> Result<Items<(Operator, Expression)>, AllocError>
    ensures { IfOk result (λ r. steps_of (map step_of r)
        ≡ sealed_steps (last_in numbers.now) (steps_of (map step_of steps.now))) }
{
    let mut out = Items::new(alloc);
    put_steps(steps, alloc, numbers, &mut out)?;
    Ok(out)
}

#[cycle(expressions)]
fn put_steps(
    steps: &[(Operator, Expression)],
    alloc: Global,
    numbers: &LastNumbers,
    out: &mut Items<(Operator, Expression)>,
) -> Result<(), AllocError>
    ensures { OnOk result (map step_of out.new ≡ map step_of out.old
        ++ map (sealed_step (last_in numbers.now)) (map step_of steps.now)) }
{
    for (operator, e) in steps {
        let sealed = sealed_expression(e, alloc, numbers)?;
        out.push((sealed_operator(numbers, *operator), sealed))?;
    }
    Ok(())
}

#[cycle(expressions)]
fn sealed_prints(
    pieces: &[Print],
    alloc: Global,
    numbers: &LastNumbers,
) -> Result<Items<Print>, AllocError>
    ensures { IfOk result (λ r. prints_of (map print_of r)
        ≡ sealed_prints (last_in numbers.now) (prints_of (map print_of pieces.now))) }
{
    let mut out = Items::new(alloc);
    put_prints(pieces, alloc, numbers, &mut out)?;
    Ok(out)
}

#[cycle(expressions)]
fn put_prints(
    pieces: &[Print],
    alloc: Global,
    numbers: &LastNumbers,
    out: &mut Items<Print>,
) -> Result<(), AllocError>
    ensures { OnOk result (map print_of out.new ≡ map print_of out.old
        ++ map (sealed_print (last_in numbers.now)) (map print_of pieces.now)) }
{
    for piece in pieces {
        let sealed = sealed_print(piece, alloc, numbers)?;
        out.push(sealed)?;
    }
    Ok(())
}
