//! The rules Kind and Constant of a command. No call takes memory.

ghost use Rattle.std.specs.Prelude.{◌≡◌, ◌&&◌, ◌||◌};
ghost use Rattle.std.specs.List.{list_all};
ghost use Rattle.porch_flat.specs.whole.Places.{compared_type, own_type, place, places_of, pointee_of_var, returned_places, right_type, shown_type, type_at, type_of_var};
ghost use Rattle.porch_flat.specs.whole.Rewritten.{same_number};
ghost use Rattle.porch_flat.specs.whole.Rules.{are_alike, fit_kinds, fits, has_constant, has_kinds, is_pointer, is_scalar, is_struct, is_whole, is_wide};
ghost use Rattle.porch_flat.specs.whole.Views.{view_of};

use crate::flat::Operand;
use crate::whole::arguments::{fits, has_constant, have_constants, params};
use crate::whole::form::Form;
use crate::whole::types::{
    CHAR, LONG, begins_at, compared_type, is_pointer, is_scalar, is_struct, is_whole, is_wide,
    own_type, pointee_of_var, right_type, same_number, shown_type, type_of_var, type_within,
};
use crate::whole::{Flat, Function};
use porch_types::INT;

/// Whether the variables that are no operands, and the places that several types may stand in, have the
/// types that the form asks for.
pub(crate) fn has_kinds(flat: &Flat, f: &Function, form: &Form<'_>) -> bool
    ensures { result ≡ has_kinds flat.now f.now (view_of form.now) }
{
    match form {
        Form::Move(v, _) => is_scalar(flat, type_of_var(f, *v)),
        Form::Cast(v, w) => is_whole(flat, type_of_var(f, *v))
            && is_whole(flat, type_of_var(f, *w)),
        Form::Operator(op, v, _, b) => {
            is_wide(flat, type_of_var(f, *v)) && is_wide(flat, right_type(f, *op, *v, *b))
        }
        Form::Complement(v, _) => is_wide(flat, type_of_var(f, *v)),
        Form::Comparison(_, v, a, b) => is_of(f, *v, INT) && are_comparable(flat, f, *a, *b),
        Form::Subobject(v, within, leaf) => begins_at(
            flat,
            type_within(flat, f, *within),
            pointee_of_var(flat, f, *v),
            *leaf,
        ),
        Form::Step(_, v, p, o) => are_alike(flat, f, *v, *p) && is_count(flat, f, *o),
        Form::Difference(v, p, q) => is_of(f, *v, LONG) && are_alike(flat, f, *p, *q),
        Form::Load(v, p) => {
            is_scalar(flat, type_of_var(f, *v))
                && same_number(pointee_of_var(flat, f, *p), type_of_var(f, *v))
        }
        Form::Store(p, _) => is_scalar(flat, pointee_of_var(flat, f, *p)),
        Form::Copy(p, q) => are_alike(flat, f, *p, *q)
            && is_struct(flat, pointee_of_var(flat, f, *p)),
        Form::Allocate(_, v, o) => is_pointer(flat, type_of_var(f, *v)) && is_count(flat, f, *o),
        Form::Free(p) => is_pointer(flat, type_of_var(f, *p)),
        Form::Show(how, v, o) => is_of(f, *v, INT) && is_wide(flat, shown_type(f, *how, *o)),
        Form::Text(v, p) => {
            is_of(f, *v, INT) && same_number(pointee_of_var(flat, f, *p), Some(CHAR))
        }
        Form::Kill(_)
        | Form::Label(_)
        | Form::Jump(_)
        | Form::Branch(_, _)
        | Form::Turn
        | Form::Call(_, _, _)
        | Form::Return(_)
        | Form::Checkpoint
        | Form::Restore(_)
        | Form::Table(_, _)
        | Form::Saved(_, _)
        | Form::Push(_) => true,
    }
}

/// Whether the operands that are variables have the types that their places ask for; those of a call and
/// a return are held against their functions by another rule.
pub(crate) fn fit_kinds(flat: &Flat, f: &Function, form: &Form<'_>) -> bool
    ensures { result ≡ fit_kinds flat.now f.now (view_of form.now) }
{
    match form {
        Form::Move(v, o) | Form::Complement(v, o) => fits(f, *o, type_of_var(f, *v)),
        Form::Operator(op, v, a, b) => {
            fits(f, *a, type_of_var(f, *v)) && fits(f, *b, right_type(f, *op, *v, *b))
        }
        Form::Comparison(_, _, a, b) => fit_one_type(f, *a, *b, compared_type(f, *a, *b)),
        Form::Step(_, _, _, o) | Form::Allocate(_, _, o) => fits(f, *o, own_type(f, LONG, *o)),
        Form::Store(p, o) => fits(f, *o, pointee_of_var(flat, f, *p)),
        Form::Show(how, _, o) => fits(f, *o, shown_type(f, *how, *o)),
        Form::Branch(o, _) => fits(f, *o, Some(INT)),
        Form::Cast(_, _)
        | Form::Subobject(_, _, _)
        | Form::Difference(_, _, _)
        | Form::Load(_, _)
        | Form::Copy(_, _)
        | Form::Kill(_)
        | Form::Free(_)
        | Form::Text(_, _)
        | Form::Label(_)
        | Form::Jump(_)
        | Form::Turn
        | Form::Call(_, _, _)
        | Form::Return(_)
        | Form::Checkpoint
        | Form::Restore(_)
        | Form::Table(_, _)
        | Form::Saved(_, _)
        | Form::Push(_) => true,
    }
}

/// Whether the operands that are constants lie in the types that their places ask for.
pub(crate) fn has_constants(flat: &Flat, f: &Function, form: &Form<'_>) -> bool
    ensures { result ≡ list_all (λ p. has_constant flat.now p.operand p.ty)
        (places_of flat.now f.now (view_of form.now)) }
{
    match form {
        Form::Move(v, o) | Form::Complement(v, o) => has_constant(flat, *o, type_of_var(f, *v)),
        Form::Operator(op, v, a, b) => {
            has_constant(flat, *a, type_of_var(f, *v))
                && has_constant(flat, *b, right_type(f, *op, *v, *b))
        }
        Form::Comparison(_, _, a, b) => have_one_type(flat, *a, *b, compared_type(f, *a, *b)),
        Form::Step(_, _, _, o) | Form::Allocate(_, _, o) => {
            has_constant(flat, *o, own_type(f, LONG, *o))
        }
        Form::Store(p, o) => has_constant(flat, *o, pointee_of_var(flat, f, *p)),
        Form::Show(how, _, o) => has_constant(flat, *o, shown_type(f, *how, *o)),
        Form::Branch(o, _) => has_constant(flat, *o, Some(INT)),
        Form::Call(_, g, os) => have_constants(flat, os, params(flat, *g)),
        Form::Return(o) => has_returned_constant(flat, *o, f.result),
        Form::Cast(_, _)
        | Form::Subobject(_, _, _)
        | Form::Difference(_, _, _)
        | Form::Load(_, _)
        | Form::Copy(_, _)
        | Form::Kill(_)
        | Form::Free(_)
        | Form::Text(_, _)
        | Form::Label(_)
        | Form::Jump(_)
        | Form::Turn
        | Form::Checkpoint
        | Form::Restore(_)
        | Form::Table(_, _)
        | Form::Saved(_, _)
        | Form::Push(_) => true,
    }
}

fn is_of(f: &Function, v: u32, ty: u32) -> bool
    ensures { result ≡ same_number (type_of_var f.now v) (Some ty) }
{
    same_number(type_of_var(f, v), Some(ty))
}

fn are_alike(flat: &Flat, f: &Function, p: u32, q: u32) -> bool
    ensures { result ≡ are_alike flat.now f.now p q }
{
    is_pointer(flat, type_of_var(f, p)) && same_number(type_of_var(f, p), type_of_var(f, q))
}

fn is_count(flat: &Flat, f: &Function, o: Operand) -> bool
    ensures { result ≡ is_wide (type_at flat.now (own_type f.now LONG o)) }
{
    is_wide(flat, own_type(f, LONG, o))
}

fn are_comparable(flat: &Flat, f: &Function, a: Operand, b: Operand) -> bool
    ensures { result ≡ (is_wide (type_at flat.now (compared_type f.now a b))
        || is_pointer (type_at flat.now (compared_type f.now a b))) }
{
    let ty = compared_type(f, a, b);
    is_wide(flat, ty) || is_pointer(flat, ty)
}

fn fit_one_type(f: &Function, a: Operand, b: Operand, ty: Option<u32>) -> bool
    ensures { result ≡ (fits f.now (place a ty) && fits f.now (place b ty)) }
{
    fits(f, a, ty) && fits(f, b, ty)
}

fn have_one_type(flat: &Flat, a: Operand, b: Operand, ty: Option<u32>) -> bool
    ensures { result ≡ (has_constant flat.now a ty && has_constant flat.now b ty) }
{
    has_constant(flat, a, ty) && has_constant(flat, b, ty)
}

fn has_returned_constant(flat: &Flat, o: Option<Operand>, ty: Option<u32>) -> bool
    ensures { result ≡ list_all (λ p. has_constant flat.now p.operand p.ty) (returned_places o ty) }
{
    match o {
        Some(value) => has_constant(flat, value, ty),
        None => true,
    }
}
