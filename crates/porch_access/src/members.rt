//! `.` and `->`.

ghost use Rattle.std.specs.Prelude.{◌≡◌, IfOk, IfErr, Ok};
ghost use Rattle.porch_typed.specs.Views.{expression_of, place_of};
ghost use Rattle.porch_typed.specs.Mirror.{member_of, pointee};
ghost use Rattle.porch_typed.specs.Mirror as tree;
ghost use Rattle.porch_check.specs.Operands.{operand, place, typed_as};
ghost use Rattle.porch_check.specs.Operators.{arrow_form, member_form, member_of_value};
ghost use Rattle.porch_operands.specs.Views.{as_form, as_typed, as_value};
ghost use Rattle.porch_nodes.specs.Answers.{Refuses};

use porch_lex::{Refusal, Rule, SourceFault};
use porch_nodes::places::Object;
use porch_nodes::unary;
use porch_operands::places::{self, MemberValue};
use porch_operands::{Form, Member, Table, Typed};
use porch_rows::{drop_place, drop_tree};
use porch_typed::{Expression, Place};
use sqlite_items::Boxed;
use std::alloc::{AllocError, Global};

/// `.` behind an operand. `at` is where the whole begins, `name_at` the member's name.
pub fn member<'t, T: Table>(
    alloc: Global,
    at: u32,
    name_at: u32,
    name: &[u8],
    form: Form<'t>,
    table: &T,
) -> Result<Form<'t>, SourceFault>
    ensures made { IfOk result (λ f.
        member_form at (record { at = name_at; bytes = name.now }) (as_form form.entry)
        (T.scopes table.now) ≡ Ok (as_form f)) }
    ensures refused { IfErr result (λ f. Refuses f
        (member_form at (record { at = name_at; bytes = name.now }) (as_form form.entry)
        (T.scopes table.now))) }
{
    match form {
        Form::Place(place, shape) => {
            let object = Object { place, shape };
            let member = member_of_place(alloc, at, name_at, name, object, table)?;
            Ok(Form::Place(member.place, member.shape))
        }
        Form::Operand(x) => {
            let member = value_of_member(alloc, at, name_at, name, x, table)?;
            Ok(Form::Operand(member))
        }
        Form::Literal(_) => Err(SourceFault::Refused(mismatch(at))),
        Form::Size(_) => Err(SourceFault::Refused(mismatch(at))),
        Form::Sized(count, _) => {
            drop_tree(count.tree);
            Err(SourceFault::Refused(mismatch(at)))
        }
        Form::Callee(_, _) => Err(SourceFault::Refused(mismatch(at))),
        Form::LibraryCallee(_) => Err(SourceFault::Refused(mismatch(at))),
    }
}

fn mismatch(at: u32) -> Refusal
    ensures { result ≡ record { at = at; rule = Rule.Mismatch } }
{
    Refusal {
        at,
        rule: Rule::Mismatch,
    }
}

// Of a struct that is a place.
fn member_of_place<T: Table>(
    alloc: Global,
    at: u32,
    name_at: u32,
    name: &[u8],
    object: Object,
    table: &T,
) -> Result<Object, SourceFault>
    ensures made { IfOk result (λ o.
        member_form at (record { at = name_at; bytes = name.now })
        (place (place_of object.place) object.shape) (T.scopes table.now)
        ≡ Ok (place (place_of o.place) o.shape)) }
    ensures refused { IfErr result (λ f. Refuses f
        (member_form at (record { at = name_at; bytes = name.now })
        (place (place_of object.place) object.shape) (T.scopes table.now))) }
{
    match places::member(at, name_at, name, object.shape, table) {
        Ok(member) => Ok(object_in(alloc, object.place, member)?),
        Err(refusal) => {
            drop_place(object.place);
            Err(SourceFault::Refused(refusal))
        }
    }
}

fn object_in(alloc: Global, of: Place, member: Member) -> Result<Object, AllocError>
    ensures { IfOk result (λ o. place (place_of o.place) o.shape
        ≡ place (tree.member member.leaf (place_of of)) member.shape) }
{
    let of = Boxed::new(alloc, of)?;
    Ok(Object {
        place: member_place(member.leaf, of),
        shape: member.shape,
    })
}

fn member_place(leaf: u32, of: Boxed<Place>) -> Place
    ensures { place_of result ≡ tree.member leaf (place_of of) }
{
    Place::Member(leaf, of)
}

// Of a struct that is no place.
fn value_of_member<T: Table>(
    alloc: Global,
    at: u32,
    name_at: u32,
    name: &[u8],
    value: Typed,
    table: &T,
) -> Result<Typed, SourceFault>
    ensures made { IfOk result (λ x.
        member_of_value at (record { at = name_at; bytes = name.now }) (T.scopes table.now)
        (as_typed value) (as_value value.sort.value)
        ≡ Ok (operand (as_typed x))) }
    ensures refused { IfErr result (λ f. Refuses f
        (member_of_value at (record { at = name_at; bytes = name.now }) (T.scopes table.now)
        (as_typed value) (as_value value.sort.value))) }
{
    match places::member_of_value(at, name_at, name, value.sort.value, table) {
        Ok(member) => Ok(value_in(alloc, value.tree, member)?),
        Err(refusal) => {
            drop_tree(value.tree);
            Err(SourceFault::Refused(refusal))
        }
    }
}

fn value_in(alloc: Global, of: Expression, member: MemberValue) -> Result<Typed, AllocError>
    ensures { IfOk result (λ x. operand (as_typed x)
        ≡ operand (typed_as
        (member_of member.member.shape member.member.leaf (expression_of of))
        (as_value member.value))) }
{
    let of = Boxed::new(alloc, of)?;
    Ok(unary::value_of(member_tree(member.member, of), member.value))
}

fn member_tree(member: Member, of: Boxed<Expression>) -> Expression
    ensures { expression_of result ≡ member_of member.shape member.leaf (expression_of of) }
{
    Expression::MemberOf {
        ty: member.shape,
        leaf: member.leaf,
        of,
    }
}

/// `->` behind a value.
pub fn arrow<T: Table>(
    alloc: Global,
    at: u32,
    name_at: u32,
    name: &[u8],
    value: Typed,
    table: &T,
) -> Result<Object, SourceFault>
    ensures made { IfOk result (λ o.
        arrow_form at (record { at = name_at; bytes = name.now }) (T.scopes table.now)
        (as_typed value) (as_value value.sort.value)
        ≡ Ok (place (place_of o.place) o.shape)) }
    ensures refused { IfErr result (λ f. Refuses f
        (arrow_form at (record { at = name_at; bytes = name.now }) (T.scopes table.now)
        (as_typed value) (as_value value.sort.value))) }
{
    match places::arrow(at, name_at, name, value.sort.value, table) {
        Ok(member) => Ok(object_behind(alloc, value.tree, member)?),
        Err(refusal) => {
            drop_tree(value.tree);
            Err(SourceFault::Refused(refusal))
        }
    }
}

fn object_behind(alloc: Global, pointer: Expression, member: Member) -> Result<Object, AllocError>
    ensures { IfOk result (λ o. place (place_of o.place) o.shape
        ≡ place (tree.member member.leaf (pointee (expression_of pointer))) member.shape) }
{
    let pointer = Boxed::new(alloc, pointer)?;
    object_in(alloc, pointee_of(pointer), member)
}

fn pointee_of(pointer: Boxed<Expression>) -> Place
    ensures { place_of result ≡ pointee (expression_of pointer) }
{
    Place::Pointee(pointer)
}
