//! The rule Number of a command: what its numbers name is there. No call takes memory.

ghost use Rattle.std.specs.Prelude.{◌≡◌, ◌&&◌, length, nat_lt};
ghost use Rattle.std.specs.List.{list_all};
ghost use Rattle.porch_flat.specs.whole.Form.{operands_of, operand_list, number_list, variable_of, variables_of, free_numbers_of};
ghost use Rattle.porch_flat.specs.whole.Places.{type_within};
ghost use Rattle.porch_flat.specs.whole.Rules.{has_numbers, is_leaf_of, is_number_of, names_rest, names_variable, names_whole};
ghost use Rattle.porch_flat.specs.whole.Views.{view_of, within_of};

use crate::flat::Operand;
use crate::whole::form::{Form, Within};
use crate::whole::types::{is_type, type_within};
use crate::whole::{Flat, Function};

/// Whether the leaf is one of a type; where the type isn't known another rule is broken.
pub(crate) fn is_leaf_of(flat: &Flat, ty: Option<u32>, leaf: u32) -> bool
    ensures { result ≡ is_leaf_of flat.now.types ty leaf }
{
    match ty {
        Some(whole) => is_leaf_of_type(flat, whole, leaf),
        None => true,
    }
}

/// Whether a command's numbers name something, and are within their limits.
pub(crate) fn has_numbers(flat: &Flat, f: &Function, form: &Form<'_>) -> bool
    ensures { result ≡ has_numbers flat.now f.now (view_of form.now) }
{
    has_variables(f, form)
        && has_operands(f, form)
        && has_free_numbers(form)
        && names_rest(flat, f, form)
}

fn is_leaf_of_type(flat: &Flat, ty: u32, leaf: u32) -> bool
    ensures { result ≡ is_leaf_of flat.now.types (Some ty) leaf }
{
    is_type(flat, ty) && u64::from(leaf) < flat.types.leaves(ty)
}

fn is_variable(f: &Function, v: u32) -> bool
    ensures { result ≡ nat_lt v (length f.now.vars) }
{
    (v as usize) < f.vars.len()
}

fn is_number(n: u32) -> bool
    ensures { result ≡ is_number_of n }
{
    n < 0x8000_0000
}

fn are_variables(f: &Function, vs: &[u32]) -> bool
    ensures { result ≡ list_all (λ v. nat_lt v (length f.now.vars)) vs.now }
{
    let count = f.vars.len();
    vs.iter().all(|v| (*v as usize) < count)
}

fn is_result(f: &Function, r: Option<u32>) -> bool
    ensures { result ≡ list_all (λ v. nat_lt v (length f.now.vars)) (number_list r) }
{
    match r {
        Some(v) => is_variable(f, v),
        None => true,
    }
}

fn has_variable_within(f: &Function, within: Within) -> bool
    ensures { result
        ≡ list_all (λ v. nat_lt v (length f.now.vars)) (variable_of (within_of within)) }
{
    match within {
        Within::Variable(w) => is_variable(f, w),
        Within::Global(_) => true,
        Within::Pointee(p) => is_variable(f, p),
    }
}

// Whether the variables that are named besides the operands exist.
fn has_variables(f: &Function, form: &Form<'_>) -> bool
    ensures { result
        ≡ list_all (λ v. nat_lt v (length f.now.vars)) (variables_of (view_of form.now)) }
{
    match form {
        Form::Move(v, _)
        | Form::Operator(_, v, _, _)
        | Form::Complement(v, _)
        | Form::Comparison(_, v, _, _)
        | Form::Store(v, _)
        | Form::Kill(v)
        | Form::Allocate(_, v, _)
        | Form::Free(v)
        | Form::Show(_, v, _) => is_variable(f, *v),
        Form::Cast(v, w)
        | Form::Step(_, v, w, _)
        | Form::Load(v, w)
        | Form::Copy(v, w)
        | Form::Text(v, w) => is_variable(f, *v) && is_variable(f, *w),
        Form::Difference(v, p, q) => {
            is_variable(f, *v) && is_variable(f, *p) && is_variable(f, *q)
        }
        Form::Subobject(v, within, _) => is_variable(f, *v) && has_variable_within(f, *within),
        Form::Call(r, _, _) => is_result(f, *r),
        Form::Restore(vs) | Form::Push(vs) => are_variables(f, vs),
        Form::Label(_)
        | Form::Jump(_)
        | Form::Branch(_, _)
        | Form::Turn
        | Form::Return(_)
        | Form::Checkpoint
        | Form::Table(_, _)
        | Form::Saved(_, _) => true,
    }
}

fn names_variable(f: &Function, o: Operand) -> bool
    ensures { result ≡ names_variable f.now o }
{
    match o {
        Operand::Var(v) => is_variable(f, v),
        Operand::Constant(_) => true,
    }
}

fn are_operands(f: &Function, os: &[Operand]) -> bool
    ensures { result ≡ list_all (names_variable f.now) os.now }
{
    os.iter().all(|o| names_variable(f, *o))
}

fn is_returned(f: &Function, o: Option<Operand>) -> bool
    ensures { result ≡ list_all (names_variable f.now) (operand_list o) }
{
    match o {
        Some(value) => names_variable(f, value),
        None => true,
    }
}

// Whether the operands that are variables exist.
fn has_operands(f: &Function, form: &Form<'_>) -> bool
    ensures { result ≡ list_all (names_variable f.now) (operands_of (view_of form.now)) }
{
    match form {
        Form::Move(_, o)
        | Form::Complement(_, o)
        | Form::Step(_, _, _, o)
        | Form::Store(_, o)
        | Form::Allocate(_, _, o)
        | Form::Show(_, _, o)
        | Form::Branch(o, _) => names_variable(f, *o),
        Form::Operator(_, _, a, b) | Form::Comparison(_, _, a, b) => {
            names_variable(f, *a) && names_variable(f, *b)
        }
        Form::Call(_, _, os) => are_operands(f, os),
        Form::Return(o) => is_returned(f, *o),
        Form::Cast(_, _)
        | Form::Subobject(_, _, _)
        | Form::Difference(_, _, _)
        | Form::Load(_, _)
        | Form::Copy(_, _)
        | Form::Kill(_)
        | Form::Free(_)
        | Form::Text(_, _)
        | Form::Label(_)
        | Form::Jump(_)
        | Form::Turn
        | Form::Checkpoint
        | Form::Restore(_)
        | Form::Table(_, _)
        | Form::Saved(_, _)
        | Form::Push(_) => true,
    }
}

// Whether labels and call numbers are below their limit.
fn has_free_numbers(form: &Form<'_>) -> bool
    ensures { result ≡ list_all is_number_of (free_numbers_of (view_of form.now)) }
{
    match form {
        Form::Label(n) | Form::Jump(n) | Form::Branch(_, n) => is_number(*n),
        Form::Table(k, n) | Form::Saved(k, n) => is_number(*k) && is_number(*n),
        Form::Move(_, _)
        | Form::Cast(_, _)
        | Form::Operator(_, _, _, _)
        | Form::Complement(_, _)
        | Form::Comparison(_, _, _, _)
        | Form::Subobject(_, _, _)
        | Form::Step(_, _, _, _)
        | Form::Difference(_, _, _)
        | Form::Load(_, _)
        | Form::Store(_, _)
        | Form::Copy(_, _)
        | Form::Kill(_)
        | Form::Allocate(_, _, _)
        | Form::Free(_)
        | Form::Show(_, _, _)
        | Form::Text(_, _)
        | Form::Turn
        | Form::Call(_, _, _)
        | Form::Return(_)
        | Form::Checkpoint
        | Form::Restore(_)
        | Form::Push(_) => true,
    }
}

fn names_whole(flat: &Flat, within: Within) -> bool
    ensures { result ≡ names_whole flat.now (within_of within) }
{
    match within {
        Within::Global(g) => (g as usize) < flat.globals.len(),
        Within::Variable(_) | Within::Pointee(_) => true,
    }
}

fn names_subobject(flat: &Flat, f: &Function, within: Within, leaf: u32) -> bool
    ensures { result ≡ (names_whole flat.now (within_of within)
        && is_leaf_of flat.now.types (type_within flat.now f.now (within_of within)) leaf) }
{
    names_whole(flat, within) && is_leaf_of(flat, type_within(flat, f, within), leaf)
}

// Whether the function, the global and the leaf that are named exist.
fn names_rest(flat: &Flat, f: &Function, form: &Form<'_>) -> bool
    ensures { result ≡ names_rest flat.now f.now (view_of form.now) }
{
    match form {
        Form::Subobject(_, within, leaf) => names_subobject(flat, f, *within, *leaf),
        Form::Call(_, g, _) => (*g as usize) < flat.functions.len(),
        Form::Move(_, _)
        | Form::Cast(_, _)
        | Form::Operator(_, _, _, _)
        | Form::Complement(_, _)
        | Form::Comparison(_, _, _, _)
        | Form::Step(_, _, _, _)
        | Form::Difference(_, _, _)
        | Form::Load(_, _)
        | Form::Store(_, _)
        | Form::Copy(_, _)
        | Form::Kill(_)
        | Form::Allocate(_, _, _)
        | Form::Free(_)
        | Form::Show(_, _, _)
        | Form::Text(_, _)
        | Form::Label(_)
        | Form::Jump(_)
        | Form::Branch(_, _)
        | Form::Turn
        | Form::Return(_)
        | Form::Checkpoint
        | Form::Restore(_)
        | Form::Table(_, _)
        | Form::Saved(_, _)
        | Form::Push(_) => true,
    }
}
