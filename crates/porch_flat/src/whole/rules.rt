//! The first rule that a line breaks, for each sort of line. No call takes memory.

ghost use Rattle.std.specs.Prelude.{◌≡◌, ◌<◌, ◌≤◌, ◌+◌, ◌&&◌, ℕ, nat_le, nat_lt, length, slice_get, Some};
ghost use Rattle.std.specs.List.{list_all};
ghost use Rattle.std.specs.Option.{option_copied};
ghost use Rattle.porch_types.specs.Leaves.{leaves_of};
ghost use Rattle.porch_flat.specs.Labelled.{place_in};
ghost use Rattle.porch_flat.specs.whole.Lines.{type_line, global_line, init_line, function_line, var_line, command_line};
ghost use Rattle.porch_flat.specs.whole.Places.{global_type, place_of_label};
ghost use Rattle.porch_flat.specs.whole.Rules.{fit_kinds, has_init_constant, has_init_kind, has_init_numbers, has_kinds, has_modes, has_result_kind, has_type, init_before, is_behind, is_leaf_of, is_type, keeps_kind, keeps_number, leaf_of_init, named_types};
ghost use Rattle.porch_flat.specs.whole.Search.{first_rule};
ghost use Rattle.porch_flat.specs.whole.Views.{view_of};
ghost use Rattle.porch_flat.specs.inside.Walks.{leaves_before};

use crate::flat::{GlobalObject, Init};
use crate::whole::arity::has_arity;
use crate::whole::form::{Form, form_of_command};
use crate::whole::jumps::keeps_jump;
use crate::whole::kinds::{fit_kinds, has_constants, has_kinds};
use crate::whole::labels::Labels;
use crate::whole::numbers::{has_numbers, is_leaf_of};
use crate::whole::types::{
    begins_at, is_constant_of, is_scalar, is_type, is_whole, leaf_type, pointed, type_of_global,
};
use crate::whole::{Command, Flat, FlatRule, Function, Sort};
use porch_types::Ty;

/// Numbers of each sort are below this one.
const LIMIT: usize = 0x8000_0000;

/// The most leaves of all globals together.
pub(crate) const MOST_GLOBAL_LEAVES: u64 = 8_388_608;

fn are_types(flat: &Flat, types: &[u32]) -> bool
    ensures { result ≡ list_all (is_type flat.now) types.now }
{
    types.iter().all(|ty| is_type(flat, *ty))
}

fn has_named_types(flat: &Flat, ty: &Ty) -> bool
    ensures { result ≡ list_all (is_type flat.now) (named_types ty.now) }
{
    match ty {
        Ty::Whole { .. } => true,
        Ty::Pointer { to } => is_type(flat, *to),
        Ty::Array { of, .. } => is_type(flat, *of),
        Ty::Struct { members } => are_types(flat, members.as_slice()),
    }
}

/// The first rule that the line of a type breaks.
pub(crate) fn type_rule(sort: Sort, flat: &Flat, number: usize, ty: &Ty) -> Option<FlatRule>
    ensures { result ≡ first_rule sort flat.now (type_line number ty.now) }
{
    if number < LIMIT && has_named_types(flat, ty) {
        None
    } else {
        Some(FlatRule::Number)
    }
}

fn has_room(flat: &Flat, g: &GlobalObject, before: u64) -> bool
    requires { before ≤ MOST_GLOBAL_LEAVES }
    ensures { result ≡ (is_type flat.now g.now.ty
        && nat_le (before + leaves_of flat.now.types g.now.ty) MOST_GLOBAL_LEAVES) }
{
    is_type(flat, g.ty) && before + flat.types.leaves(g.ty) <= MOST_GLOBAL_LEAVES
}

/// The first rule that the line of a global breaks, where the ones before it have so many leaves.
#[tactic(auto, using(crate::proofs::Walked::leaves_more))]
pub(crate) fn global_rule(
    sort: Sort,
    flat: &Flat,
    number: usize,
    g: &GlobalObject,
    before: u64,
) -> Option<FlatRule>
    requires here { slice_get flat.now.globals number ≡ Some g.now }
    requires total { before ≡ leaves_before flat.now number }
    requires few { before ≤ MOST_GLOBAL_LEAVES }
    ensures { result ≡ first_rule sort flat.now (global_line number g.now) }
{
    if number < LIMIT && has_room(flat, g, before) {
        None
    } else {
        Some(FlatRule::Number)
    }
}

fn leaf_of_init(init: &Init) -> u32
    ensures { result ≡ leaf_of_init init.now }
{
    match init {
        Init::Value(leaf, _) => *leaf,
        Init::Address(leaf, _, _) => *leaf,
    }
}

fn is_behind(before: Option<&Init>, leaf: u32) -> bool
    ensures { result ≡ is_behind (option_copied before.entry) leaf }
{
    match before {
        Some(init) => leaf_of_init(init) < leaf,
        None => true,
    }
}

fn init_before(g: &GlobalObject, at: usize) -> Option<&Init>
    ensures { option_copied result ≡ init_before g.now at }
{
    if at == 0 { None } else { g.inits.get(at - 1) }
}

fn is_init_place(flat: &Flat, other: u32, place: u32) -> bool
    ensures { result ≡ (nat_lt other (length flat.now.globals)
        && is_leaf_of flat.now.types (global_type (slice_get flat.now.globals other)) place) }
{
    (other as usize) < flat.globals.len() && is_leaf_of(flat, type_of_global(flat, other), place)
}

fn has_init_numbers(flat: &Flat, init: &Init) -> bool
    ensures { result ≡ has_init_numbers flat.now init.now }
{
    match init {
        Init::Value(_, _) => true,
        Init::Address(_, other, place) => is_init_place(flat, *other, *place),
    }
}

fn keeps_init_number(flat: &Flat, number: usize, g: &GlobalObject, at: usize, init: &Init) -> bool
    ensures { result ≡ keeps_number flat.now (init_line number g.now at init.now) }
{
    let leaf = leaf_of_init(init);
    is_leaf_of(flat, Some(g.ty), leaf)
        && is_behind(init_before(g, at), leaf)
        && has_init_numbers(flat, init)
}

fn has_init_kind(flat: &Flat, g: &GlobalObject, init: &Init) -> bool
    ensures { result ≡ has_init_kind flat.now g.now init.now }
{
    match init {
        Init::Value(leaf, _) => is_whole(flat, leaf_type(flat, g.ty, *leaf)),
        Init::Address(leaf, other, place) => begins_at(
            flat,
            type_of_global(flat, *other),
            pointed(flat, leaf_type(flat, g.ty, *leaf)),
            *place,
        ),
    }
}

fn has_init_constant(flat: &Flat, g: &GlobalObject, init: &Init) -> bool
    ensures { result ≡ has_init_constant flat.now g.now init.now }
{
    match init {
        Init::Value(leaf, z) => is_constant_of(flat, leaf_type(flat, g.ty, *leaf), *z),
        Init::Address(_, _, _) => true,
    }
}

/// The first rule that the line of an initial value breaks.
pub(crate) fn init_rule(
    sort: Sort,
    flat: &Flat,
    number: usize,
    g: &GlobalObject,
    at: usize,
    init: &Init,
) -> Option<FlatRule>
    ensures { result ≡ first_rule sort flat.now (init_line number g.now at init.now) }
{
    if !keeps_init_number(flat, number, g, at, init) {
        Some(FlatRule::Number)
    } else if !has_init_kind(flat, g, init) {
        Some(FlatRule::Kind)
    } else if !has_init_constant(flat, g, init) {
        Some(FlatRule::Constant)
    } else {
        None
    }
}

fn has_type(flat: &Flat, ty: Option<u32>) -> bool
    ensures { result ≡ has_type flat.now ty }
{
    match ty {
        Some(number) => is_type(flat, number),
        None => true,
    }
}

fn has_result_kind(flat: &Flat, ty: Option<u32>) -> bool
    ensures { result ≡ has_result_kind flat.now ty }
{
    match ty {
        Some(_) => is_scalar(flat, ty),
        None => true,
    }
}

fn keeps_function_number(flat: &Flat, number: usize, f: &Function) -> bool
    ensures { result ≡ keeps_number flat.now (function_line number f.now) }
{
    number < LIMIT && has_type(flat, f.result) && (f.params as usize) <= f.vars.len()
}

/// The first rule that the line of a function breaks; `modes` says whether it keeps Modes.
pub(crate) fn function_rule(
    sort: Sort,
    flat: &Flat,
    number: usize,
    f: &Function,
    modes: bool,
) -> Option<FlatRule>
    requires { modes ≡ has_modes sort flat.now f.now }
    ensures { result ≡ first_rule sort flat.now (function_line number f.now) }
{
    if !keeps_function_number(flat, number, f) {
        Some(FlatRule::Number)
    } else if !has_result_kind(flat, f.result) {
        Some(FlatRule::Kind)
    } else if !modes {
        Some(FlatRule::Modes)
    } else {
        None
    }
}

fn keeps_var_kind(flat: &Flat, f: &Function, v: usize, ty: u32) -> bool
    ensures { result ≡ keeps_kind flat.now (var_line f.now v ty) }
{
    (f.params as usize) <= v || is_scalar(flat, Some(ty))
}

/// The first rule that the line of a variable breaks.
pub(crate) fn var_rule(sort: Sort, flat: &Flat, f: &Function, v: usize, ty: u32) -> Option<FlatRule>
    ensures { result ≡ first_rule sort flat.now (var_line f.now v ty) }
{
    if !(v < LIMIT && is_type(flat, ty)) {
        Some(FlatRule::Number)
    } else if !keeps_var_kind(flat, f, v, ty) {
        Some(FlatRule::Kind)
    } else {
        None
    }
}

fn keeps_kinds(flat: &Flat, f: &Function, form: &Form<'_>) -> bool
    ensures { result ≡ (has_kinds flat.now f.now (view_of form.now)
        && fit_kinds flat.now f.now (view_of form.now)) }
{
    has_kinds(flat, f, form) && fit_kinds(flat, f, form)
}

/// The first rule that the line of a command breaks.
pub(crate) fn command_rule(
    sort: Sort,
    flat: &Flat,
    f: &Function,
    labels: &Labels,
    at: usize,
    command: &Command,
) -> Option<FlatRule>
    requires { (n : ℕ) → place_in labels.now n ≡ place_of_label f.now.commands n }
    ensures { result ≡ first_rule sort flat.now (command_line f.now at command.now) }
{
    let form = form_of_command(command);
    if !has_numbers(flat, f, &form) {
        Some(FlatRule::Number)
    } else if !keeps_kinds(flat, f, &form) {
        Some(FlatRule::Kind)
    } else if !has_constants(flat, f, &form) {
        Some(FlatRule::Constant)
    } else if !keeps_jump(f, labels, at, &form) {
        Some(FlatRule::Jump)
    } else if !has_arity(flat, f, &form) {
        Some(FlatRule::Arity)
    } else {
        None
    }
}
