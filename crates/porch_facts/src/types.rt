//! Types of expressions, and of the variables that hold their values.

ghost use Rattle.std.specs.Prelude.{◌≡◌, map, slice_get};
ghost use Rattle.porch_typed.specs.Views.{expression_of, expressions_of, function_of, program_of, steps_of};
ghost use Rattle.porch_lowering.specs.Values.{held_type, last_type, operator_type, pointer_to, result_of, steps_type, type_held, type_of};
ghost use Rattle.porch_facts.specs.inside.Rows.{is_struct, step_of};

use porch_typed::{Expression, Function, Operator, Program};
use porch_types::{Kind, Ty};

/// The type of what an operator gives.
pub fn operator_type(operator: Operator) -> u32
    ensures { result ≡ operator_type operator }
{
    match operator {
        Operator::Arithmetic(_, kind) => kind.number(),
        Operator::Shift(_, kind) => kind.number(),
        Operator::Compare(_, _) => Kind::Int.number(),
        Operator::ComparePointers(_, _) => Kind::Int.number(),
        Operator::Forward(ty) => ty,
        Operator::Back(ty) => ty,
        Operator::ForwardOf(ty) => ty,
        Operator::Difference(_) => Kind::Long.number(),
    }
}

/// The type of the pointers to a type, and 0 where the program has none.
pub fn pointer_to(ty: u32, program: &Program) -> u32
    ensures { result ≡ pointer_to (program_of program.now) ty }
{
    let pointers = program.pointers.as_slice();
    if (ty as usize) < pointers.len() {
        pointers[ty as usize]
    } else {
        0
    }
}

/// The type of an expression, and none where it is void.
#[cycle(types)]
#[tactic(auto, using(crate::proofs::Rows::row_view))]
pub fn type_of(e: &Expression, program: &Program) -> Option<u32>
    ensures { result ≡ type_of (program_of program.now) (expression_of e.now) }
{
    match e {
        Expression::Row(first, steps) => steps_type(
            steps.as_slice(),
            type_of(first.get(), program),
        ),
        Expression::Sequence(first, more) => last_type(
            more.as_slice(),
            type_of(first.get(), program),
            program,
        ),
        Expression::Constant(kind, _)
        | Expression::Unary(_, kind, _)
        | Expression::Conversion(kind, _) => Some(kind.number()),
        Expression::NullPointer(ty)
        | Expression::Read(ty, _)
        | Expression::Whole(ty, _)
        | Expression::Address(ty, _)
        | Expression::First(ty, _)
        | Expression::Assign(ty, _, _)
        | Expression::AssignBy(ty, _, _, _)
        | Expression::Increment {
            ty,
            before: _,
            way: _,
            place: _,
        }
        | Expression::MemberOf { ty, leaf: _, of: _ }
        | Expression::Allocate {
            ty,
            zeroed: _,
            count: _,
        } => Some(*ty),
        Expression::AllOf(_, _)
        | Expression::AnyOf(_, _)
        | Expression::Isnt(_)
        | Expression::PutCharacter(_)
        | Expression::PutText(_)
        | Expression::PutLiteral(_)
        | Expression::Print(_) => Some(Kind::Int.number()),
        Expression::Choice {
            ty,
            condition: _,
            chosen: _,
            other: _,
        } => *ty,
        Expression::Call(function, _) => result_of(program.functions.as_slice(), *function),
        Expression::Discard(_) | Expression::Release(_) | Expression::Checkpoint => None,
    }
}

// The last of the expressions behind a comma has the type of them all.
#[cycle(types)]
fn last_type(more: &[Expression], first: Option<u32>, program: &Program) -> Option<u32>
    ensures { result ≡ last_type (program_of program.now)
        (expressions_of (map expression_of more.now)) first }
{
    let mut ty = first;
    for e in more {
        ty = type_of(e, program);
    }
    ty
}

fn steps_type(steps: &[(Operator, Expression)], first: Option<u32>) -> Option<u32>
    ensures { result ≡ steps_type (steps_of (map step_of steps.now)) first }
{
    let mut ty = first;
    for (operator, _) in steps {
        ty = Some(operator_type(*operator));
    }
    ty
}

fn result_of(functions: &[Function], number: u32) -> Option<u32>
    ensures { result ≡ result_of (slice_get (map function_of functions.now) number) }
{
    match functions.get(number as usize) {
        None => None,
        Some(f) => f.result,
    }
}

/// The type of the variable that holds a value of a type: a struct is held as a pointer to it. What is void
/// is held in none, and has the type `int`.
pub fn held_type(ty: Option<u32>, program: &Program) -> u32
    ensures { result ≡ held_type (program_of program.now) ty }
{
    match ty {
        None => Kind::Int.number(),
        Some(ty) => {
            if is_struct(ty, program) {
                pointer_to(ty, program)
            } else {
                ty
            }
        }
    }
}

/// Whether a type is a struct.
pub(crate) fn is_struct(ty: u32, program: &Program) -> bool
    ensures { result ≡ is_struct (slice_get program.now.types ty) }
{
    if (ty as usize) < program.types.len() {
        matches!(program.types.get(ty), Ty::Struct { members: _ })
    } else {
        false
    }
}

/// The type of the variable that holds an expression's value.
pub fn type_held(e: &Expression, program: &Program) -> u32
    ensures { result ≡ type_held (program_of program.now) (expression_of e.now) }
{
    held_type(type_of(e, program), program)
}
