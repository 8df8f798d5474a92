//! Types of variables, leaves and operands, as the rules look at them. No call takes memory.

ghost use Rattle.std.specs.Prelude.{◌≡◌, pos, slice_get};
ghost use Rattle.std.specs.Option.{option_copied};
ghost use Rattle.std.specs.Ordering.{int_eq};
ghost use Rattle.porch_values.specs.Integers.{in_range, is_shift};
ghost use Rattle.porch_flat.specs.whole.Places.{type_at, pointed, type_of_var, pointee_of_var, global_type, type_within, own_type, compared_type, right_type, shown_type, leaf_type};
ghost use Rattle.porch_flat.specs.whole.Rewritten.{same_number};
ghost use Rattle.porch_flat.specs.whole.Rules.{is_type, is_whole, is_wide, is_pointer, is_scalar, is_struct, is_constant_of, begins_at};
ghost use Rattle.porch_flat.specs.whole.Views.{within_of};

use crate::flat::Operand;
use crate::whole::form::Within;
use crate::whole::{Display, Flat, Function};
use porch_types::{INT, Kind, Ty};
use porch_values::{Op, greatest, is_operand, least};

/// The number of `unsigned int` in each list of types.
const UNSIGNED_INT: u32 = 5;

/// The number of `long` in each list of types.
pub(crate) const LONG: u32 = 6;

/// The number of `char` in each list of types.
pub(crate) const CHAR: u32 = 0;

/// Whether a type of this number exists.
pub(crate) fn is_type(flat: &Flat, ty: u32) -> bool
    ensures { result ≡ is_type flat.now ty }
{
    (ty as usize) < flat.types.len()
}

fn type_of_number(flat: &Flat, ty: u32) -> Option<&Ty>
    ensures { option_copied result ≡ slice_get flat.now.types ty }
{
    if is_type(flat, ty) {
        Some(flat.types.get(ty))
    } else {
        None
    }
}

/// The type of a number, if there is one. It takes no memory.
pub fn type_at(flat: &Flat, ty: Option<u32>) -> Option<&Ty>
    ensures { option_copied result ≡ type_at flat.now ty }
{
    match ty {
        Some(number) => type_of_number(flat, number),
        None => None,
    }
}

/// What a pointer type points to.
pub(crate) fn pointed(flat: &Flat, ty: Option<u32>) -> Option<u32>
    ensures { result ≡ pointed (type_at flat.now ty) }
{
    match type_at(flat, ty) {
        Some(Ty::Pointer { to }) => Some(*to),
        Some(Ty::Whole { .. }) => None,
        Some(Ty::Array { .. }) => None,
        Some(Ty::Struct { .. }) => None,
        None => None,
    }
}

/// Whether a type is an integer.
pub(crate) fn is_whole(flat: &Flat, ty: Option<u32>) -> bool
    ensures { result ≡ is_whole (type_at flat.now ty) }
{
    match type_at(flat, ty) {
        Some(Ty::Whole { .. }) => true,
        Some(Ty::Pointer { .. }) => false,
        Some(Ty::Array { .. }) => false,
        Some(Ty::Struct { .. }) => false,
        None => false,
    }
}

/// Whether a type is an integer that operators take.
pub(crate) fn is_wide(flat: &Flat, ty: Option<u32>) -> bool
    ensures { result ≡ is_wide (type_at flat.now ty) }
{
    match type_at(flat, ty) {
        Some(Ty::Whole { kind }) => is_operand(*kind),
        Some(Ty::Pointer { .. }) => false,
        Some(Ty::Array { .. }) => false,
        Some(Ty::Struct { .. }) => false,
        None => false,
    }
}

/// Whether a type is a pointer.
pub(crate) fn is_pointer(flat: &Flat, ty: Option<u32>) -> bool
    ensures { result ≡ is_pointer (type_at flat.now ty) }
{
    pointed(flat, ty).is_some()
}

/// Whether a type is an integer or a pointer.
pub(crate) fn is_scalar(flat: &Flat, ty: Option<u32>) -> bool
    ensures { result ≡ is_scalar (type_at flat.now ty) }
{
    is_whole(flat, ty) || is_pointer(flat, ty)
}

/// Whether a type is a struct.
pub(crate) fn is_struct(flat: &Flat, ty: Option<u32>) -> bool
    ensures { result ≡ is_struct (type_at flat.now ty) }
{
    match type_at(flat, ty) {
        Some(Ty::Struct { .. }) => true,
        Some(Ty::Whole { .. }) => false,
        Some(Ty::Pointer { .. }) => false,
        Some(Ty::Array { .. }) => false,
        None => false,
    }
}

/// Whether two numbers are there and the same.
pub(crate) fn same_number(left: Option<u32>, right: Option<u32>) -> bool
    ensures { result ≡ same_number left right }
{
    match left {
        Some(n) => match right {
            Some(m) => n == m,
            None => false,
        },
        None => false,
    }
}

/// The type of a variable, if there is one. It takes no memory.
pub fn type_of_var(f: &Function, v: u32) -> Option<u32>
    ensures { result ≡ type_of_var f.now v }
{
    f.vars.get(v as usize).copied()
}

/// What a variable points to, where it is a pointer. It takes no memory.
pub fn pointee_of_var(flat: &Flat, f: &Function, v: u32) -> Option<u32>
    ensures { result ≡ pointee_of_var flat.now f.now v }
{
    pointed(flat, type_of_var(f, v))
}

/// The type of a global.
pub(crate) fn type_of_global(flat: &Flat, g: u32) -> Option<u32>
    ensures { result ≡ global_type (slice_get flat.now.globals g) }
{
    match flat.globals.get(g as usize) {
        Some(global) => Some(global.ty),
        None => None,
    }
}

/// The type of what a leaf is counted in.
pub(crate) fn type_within(flat: &Flat, f: &Function, within: Within) -> Option<u32>
    ensures { result ≡ type_within flat.now f.now (within_of within) }
{
    match within {
        Within::Variable(w) => type_of_var(f, w),
        Within::Global(g) => type_of_global(flat, g),
        Within::Pointee(p) => pointee_of_var(flat, f, p),
    }
}

/// The type of an operand that decides it itself: a variable's own, and of a constant the one given.
pub(crate) fn own_type(f: &Function, ty: u32, o: Operand) -> Option<u32>
    ensures { result ≡ own_type f.now ty o }
{
    match o {
        Operand::Var(v) => type_of_var(f, v),
        Operand::Constant(_) => Some(ty),
    }
}

/// The type in which two operands are compared: that of a variable, and `int` for two constants. It takes no
/// memory.
pub fn compared_type(f: &Function, left: Operand, right: Operand) -> Option<u32>
    ensures { result ≡ compared_type f.now left right }
{
    match left {
        Operand::Var(v) => type_of_var(f, v),
        Operand::Constant(_) => own_type(f, INT, right),
    }
}

fn is_shift(op: Op) -> bool
    ensures { result ≡ is_shift op }
{
    match op {
        Op::Shl | Op::Shr => true,
        Op::Add | Op::Sub | Op::Mul | Op::Div | Op::Rem | Op::And | Op::Or | Op::Xor => false,
    }
}

/// The type of the right operand of an operator.
pub(crate) fn right_type(f: &Function, op: Op, v: u32, o: Operand) -> Option<u32>
    ensures { result ≡ right_type f.now op v o }
{
    if is_shift(op) {
        own_type(f, INT, o)
    } else {
        type_of_var(f, v)
    }
}

/// The type of an operand that is shown.
pub(crate) fn shown_type(f: &Function, how: Display, o: Operand) -> Option<u32>
    ensures { result ≡ shown_type f.now how o }
{
    match how {
        Display::Char => Some(INT),
        Display::Dec => own_type(f, LONG, o),
        Display::Hex => Some(UNSIGNED_INT),
    }
}

/// The type of a leaf, if the type that it is a leaf of exists.
pub(crate) fn leaf_type(flat: &Flat, ty: u32, leaf: u32) -> Option<u32>
    ensures { result ≡ leaf_type flat.now.types ty leaf }
{
    if is_type(flat, ty) {
        Some(flat.types.leaf_type(ty, u64::from(leaf)))
    } else {
        None
    }
}

fn holds(flat: &Flat, root: u32, ty: u32, leaf: u32) -> bool
    ensures { result ≡ begins_at flat.now.types (Some root) (Some ty) leaf }
{
    is_type(flat, root) && flat.types.row_of(root, 1, u64::from(leaf), ty).is_some()
}

/// Whether a subobject of a type begins at a leaf of another.
pub(crate) fn begins_at(flat: &Flat, root: Option<u32>, ty: Option<u32>, leaf: u32) -> bool
    ensures { result ≡ begins_at flat.now.types root ty leaf }
{
    match root {
        Some(whole) => match ty {
            Some(part) => holds(flat, whole, part, leaf),
            None => false,
        },
        None => false,
    }
}

fn is_in_narrow_range(kind: Kind, z: i128) -> bool
    ensures { result ≡ in_range kind 32 z }
{
    least(kind, 32) <= z && z <= greatest(kind, 32)
}

fn is_zero(z: i128) -> bool
    ensures { result ≡ int_eq z (pos 0) }
{
    z == 0
}

/// Whether a number is a constant of a type, in the least width of `long`.
pub(crate) fn is_constant_of(flat: &Flat, ty: Option<u32>, z: i128) -> bool
    ensures { result ≡ is_constant_of (type_at flat.now ty) z }
{
    match type_at(flat, ty) {
        Some(Ty::Whole { kind }) => is_in_narrow_range(*kind, z),
        Some(Ty::Pointer { .. }) => is_zero(z),
        Some(Ty::Array { .. }) => true,
        Some(Ty::Struct { .. }) => true,
        None => true,
    }
}
