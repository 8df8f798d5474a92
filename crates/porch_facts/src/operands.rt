//! What a command takes as its operand where it stands: a constant, or a variable.

ghost use Rattle.std.specs.Prelude.{◌≡◌};
ghost use Rattle.porch_values.specs.Integers.{in_range};
ghost use Rattle.porch_typed.specs.Views.{expression_of, place_of};
ghost use Rattle.porch_lowering.specs.Values.{atom_of, constant_of, constant_operand, only_in, operand_or, pointer_in, variable_of, variable_read, variable_read_as};
ghost use Rattle.porch_facts.specs.Accepts.{accepts_of};

use porch_flat::flat::Operand;
use porch_typed::{Expression, Place};
use porch_types::Kind;
use porch_values::{greatest, least};

/// Which constants may stand as an operand.
#[derive(Clone, Copy, Debug, PartialEq, Eq)]
pub enum Accepts {
    Nothing,
    /// Those of a kind, in each width of `long`.
    In(Kind),
    All,
}

impl Accepts {
    /// Whether a constant may stand there.
    pub fn accepts(self, z: i128) -> bool
        ensures { result ≡ accepts_of self z }
    {
        match self {
            Accepts::Nothing => false,
            Accepts::In(kind) => is_in_each_width(kind, z),
            Accepts::All => true,
        }
    }
}

// Whether a number is a value of the kind, however wide `long` is: its range is the least for 32 bits.
fn is_in_each_width(kind: Kind, z: i128) -> bool
    ensures { result ≡ in_range kind 32 z }
{
    least(kind, 32) <= z && z <= greatest(kind, 32)
}

/// The value of a constant, also of one that a conversion leaves as it is. Null is 0.
pub fn constant_of(e: &Expression) -> Option<i128>
    ensures { result ≡ constant_of (expression_of e.now) }
{
    match e {
        Expression::Constant(_, z) => Some(*z),
        Expression::NullPointer(_) => Some(0),
        Expression::Conversion(kind, of) => only_in(*kind, constant_of(of.get())),
        Expression::Read(_, _)
        | Expression::Whole(_, _)
        | Expression::Address(_, _)
        | Expression::First(_, _)
        | Expression::Row(_, _)
        | Expression::AllOf(_, _)
        | Expression::AnyOf(_, _)
        | Expression::Unary(_, _, _)
        | Expression::Isnt(_)
        | Expression::Choice {
            ty: _,
            condition: _,
            chosen: _,
            other: _,
        }
        | Expression::Sequence(_, _)
        | Expression::Assign(_, _, _)
        | Expression::AssignBy(_, _, _, _)
        | Expression::Increment {
            ty: _,
            before: _,
            way: _,
            place: _,
        }
        | Expression::Discard(_)
        | Expression::MemberOf {
            ty: _,
            leaf: _,
            of: _,
        }
        | Expression::Call(_, _)
        | Expression::PutCharacter(_)
        | Expression::PutText(_)
        | Expression::PutLiteral(_)
        | Expression::Print(_)
        | Expression::Allocate {
            ty: _,
            zeroed: _,
            count: _,
        }
        | Expression::Release(_)
        | Expression::Checkpoint => None,
    }
}

fn only_in(kind: Kind, constant: Option<i128>) -> Option<i128>
    ensures { result ≡ only_in kind constant }
{
    match constant {
        None => None,
        Some(z) => {
            if is_in_each_width(kind, z) {
                Some(z)
            } else {
                None
            }
        }
    }
}

/// The variable that a place is.
pub fn variable_of(place: &Place) -> Option<u32>
    ensures { result ≡ variable_of (place_of place.now) }
{
    match place {
        Place::Variable(v) => Some(*v),
        Place::Global(_) | Place::Pointee(_) | Place::Member(_, _) => None,
    }
}

fn variable_read_as(ty: u32, e: &Expression) -> Option<u32>
    ensures { result ≡ variable_read_as ty (expression_of e.now) }
{
    match e {
        Expression::Read(own, place) => { if *own == ty { variable_of(place) } else { None } }
        Expression::Constant(_, _)
        | Expression::NullPointer(_)
        | Expression::Whole(_, _)
        | Expression::Address(_, _)
        | Expression::First(_, _)
        | Expression::Row(_, _)
        | Expression::AllOf(_, _)
        | Expression::AnyOf(_, _)
        | Expression::Unary(_, _, _)
        | Expression::Isnt(_)
        | Expression::Choice {
            ty: _,
            condition: _,
            chosen: _,
            other: _,
        }
        | Expression::Sequence(_, _)
        | Expression::Assign(_, _, _)
        | Expression::AssignBy(_, _, _, _)
        | Expression::Increment {
            ty: _,
            before: _,
            way: _,
            place: _,
        }
        | Expression::Conversion(_, _)
        | Expression::Discard(_)
        | Expression::MemberOf {
            ty: _,
            leaf: _,
            of: _,
        }
        | Expression::Call(_, _)
        | Expression::PutCharacter(_)
        | Expression::PutText(_)
        | Expression::PutLiteral(_)
        | Expression::Print(_)
        | Expression::Allocate {
            ty: _,
            zeroed: _,
            count: _,
        }
        | Expression::Release(_)
        | Expression::Checkpoint => None,
    }
}

fn variable_read(e: &Expression) -> Option<u32>
    ensures { result ≡ variable_read (expression_of e.now) }
{
    match e {
        Expression::Read(_, place) => variable_of(place),
        Expression::Conversion(kind, of) => variable_read_as(kind.number(), of.get()),
        Expression::Constant(_, _)
        | Expression::NullPointer(_)
        | Expression::Whole(_, _)
        | Expression::Address(_, _)
        | Expression::First(_, _)
        | Expression::Row(_, _)
        | Expression::AllOf(_, _)
        | Expression::AnyOf(_, _)
        | Expression::Unary(_, _, _)
        | Expression::Isnt(_)
        | Expression::Choice {
            ty: _,
            condition: _,
            chosen: _,
            other: _,
        }
        | Expression::Sequence(_, _)
        | Expression::Assign(_, _, _)
        | Expression::AssignBy(_, _, _, _)
        | Expression::Increment {
            ty: _,
            before: _,
            way: _,
            place: _,
        }
        | Expression::Discard(_)
        | Expression::MemberOf {
            ty: _,
            leaf: _,
            of: _,
        }
        | Expression::Call(_, _)
        | Expression::PutCharacter(_)
        | Expression::PutText(_)
        | Expression::PutLiteral(_)
        | Expression::Print(_)
        | Expression::Allocate {
            ty: _,
            zeroed: _,
            count: _,
        }
        | Expression::Release(_)
        | Expression::Checkpoint => None,
    }
}

/// A constant as an operand, where it may stand there.
pub fn constant_operand(accepts: Accepts, constant: Option<i128>) -> Option<Operand>
    ensures { result ≡ constant_operand (accepts_of accepts) constant }
{
    match constant {
        None => None,
        Some(z) => {
            if accepts.accepts(z) {
                Some(Operand::Constant(z))
            } else {
                None
            }
        }
    }
}

fn operand_or(operand: Option<Operand>, variable: Option<u32>) -> Option<Operand>
    ensures { result ≡ operand_or operand variable }
{
    match (operand, variable) {
        (Some(operand), _) => Some(operand),
        (None, None) => None,
        (None, Some(v)) => Some(Operand::Var(v)),
    }
}

/// An expression as an operand where it stands.
pub fn atom_of(accepts: Accepts, e: &Expression) -> Option<Operand>
    ensures { result ≡ atom_of (accepts_of accepts) (expression_of e.now) }
{
    operand_or(constant_operand(accepts, constant_of(e)), variable_read(e))
}

/// The variable that a pointer stands in.
pub fn pointer_in(place: &Place) -> Option<Operand>
    ensures { result ≡ pointer_in (place_of place.now) }
{
    match place {
        Place::Pointee(e) => operand_or(None, variable_read(e.get())),
        Place::Variable(_) | Place::Global(_) | Place::Member(_, _) => None,
    }
}
