//! The rule Arity of a command. No call takes memory.

ghost use Rattle.std.specs.Prelude.{◌≡◌, ◌&&◌, ◌==◌, length, slice_get};
ghost use Rattle.std.specs.List.{list_all};
ghost use Rattle.porch_flat.specs.whole.Places.{argument_places, params_of, result_of};
ghost use Rattle.porch_flat.specs.whole.Rules.{fits, gives_result, has_arity, takes_result};
ghost use Rattle.porch_flat.specs.whole.Views.{view_of};

use crate::flat::Operand;
use crate::whole::arguments::{fit_parameters, fits, params};
use crate::whole::form::Form;
use crate::whole::types::{same_number, type_of_var};
use crate::whole::{Flat, Function};

/// Whether the arguments of a call, the variable for its result, and the value of a return are those of the
/// function.
pub(crate) fn has_arity(flat: &Flat, f: &Function, form: &Form<'_>) -> bool
    ensures { result ≡ has_arity flat.now f.now (view_of form.now) }
{
    match form {
        Form::Call(r, g, os) => {
            has_arguments(f, os, params(flat, *g)) && takes_result(f, *r, type_of_result(flat, *g))
        }
        Form::Return(o) => gives_result(f, *o),
        Form::Move(_, _)
        | Form::Cast(_, _)
        | Form::Operator(_, _, _, _)
        | Form::Complement(_, _)
        | Form::Comparison(_, _, _, _)
        | Form::Subobject(_, _, _)
        | Form::Step(_, _, _, _)
        | Form::Difference(_, _, _)
        | Form::Load(_, _)
        | Form::Store(_, _)
        | Form::Copy(_, _)
        | Form::Kill(_)
        | Form::Allocate(_, _, _)
        | Form::Free(_)
        | Form::Show(_, _, _)
        | Form::Text(_, _)
        | Form::Label(_)
        | Form::Jump(_)
        | Form::Branch(_, _)
        | Form::Turn
        | Form::Checkpoint
        | Form::Restore(_)
        | Form::Table(_, _)
        | Form::Saved(_, _)
        | Form::Push(_) => true,
    }
}

fn has_arguments(f: &Function, os: &[Operand], types: &[u32]) -> bool
    ensures { result ≡ ((length os.now == length types.now)
        && list_all (fits f.now) (argument_places os.now types.now)) }
{
    os.len() == types.len() && fit_parameters(f, os, types)
}

fn type_of_result(flat: &Flat, g: u32) -> Option<u32>
    ensures { result ≡ result_of (slice_get flat.now.functions g) }
{
    match flat.functions.get(g as usize) {
        Some(f) => f.result,
        None => None,
    }
}

fn takes_result(f: &Function, r: Option<u32>, ty: Option<u32>) -> bool
    ensures { result ≡ takes_result f.now r ty }
{
    match r {
        Some(v) => same_number(type_of_var(f, v), ty),
        None => true,
    }
}

fn gives_result(f: &Function, o: Option<Operand>) -> bool
    ensures { result ≡ gives_result f.now o }
{
    match o {
        Some(value) => f.result.is_some() && fits(f, value, f.result),
        None => true,
    }
}
