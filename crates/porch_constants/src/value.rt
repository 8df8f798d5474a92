//! What an expression is as a constant, and what several are together.

ghost use Rattle.std.specs.Prelude.{◌≡◌, if◌then◌else◌, not, pos};
ghost use Rattle.std.specs.Ordering.{int_eq};
ghost use Rattle.porch_check.specs.Constants.{as_int, chosen, or_undefined, truth, undefined};
ghost use Rattle.porch_constants.specs.Views.{as_folded};
ghost use Rattle.porch_constants.specs.inside.Rows.{as_truth, behind_all, behind_any, opposite};

/// What an expression is as a constant.
#[derive(Clone, Copy, Debug, PartialEq, Eq)]
pub enum Folded {
    NoConstant,
    /// It is built like one, and meets undefined behaviour.
    Undefined,
    Known(i128),
}

fn is_zero(value: i128) -> bool
    ensures { result ≡ int_eq value (pos 0) }
{
    value == 0
}

pub(crate) fn truth(value: i128) -> bool
    ensures { result ≡ truth value }
{
    !is_zero(value)
}

pub(crate) fn as_int(holds: bool) -> i128
    ensures { result ≡ as_int holds }
{
    if holds { 1 } else { 0 }
}

/// The value of an operand of `&&` and `||`: 1 or 0.
pub(crate) fn as_truth(folded: Folded) -> Folded
    ensures { as_folded result ≡ as_truth (as_folded folded) }
{
    match folded {
        Folded::NoConstant => Folded::NoConstant,
        Folded::Undefined => Folded::Undefined,
        Folded::Known(value) => Folded::Known(as_int(truth(value))),
    }
}

/// `!`
pub(crate) fn opposite(folded: Folded) -> Folded
    ensures { as_folded result ≡ opposite (as_folded folded) }
{
    match folded {
        Folded::NoConstant => Folded::NoConstant,
        Folded::Undefined => Folded::Undefined,
        Folded::Known(value) => Folded::Known(as_int(!truth(value))),
    }
}

/// An operand of `&&` behind others.
pub(crate) fn behind_all(before: Folded, next: Folded) -> Folded
    ensures { as_folded result ≡ behind_all (as_folded before) (as_folded next) }
{
    match before {
        Folded::NoConstant => Folded::NoConstant,
        Folded::Undefined => match next {
            Folded::NoConstant => Folded::NoConstant,
            Folded::Undefined => Folded::Undefined,
            Folded::Known(_) => Folded::Undefined,
        },
        Folded::Known(value) => match next {
            Folded::NoConstant => Folded::NoConstant,
            Folded::Undefined => unless_true(value, Folded::Known(0), Folded::Undefined),
            Folded::Known(last) => unless_true(value, Folded::Known(0), Folded::Known(last)),
        },
    }
}

/// An operand of `||` behind others.
pub(crate) fn behind_any(before: Folded, next: Folded) -> Folded
    ensures { as_folded result ≡ behind_any (as_folded before) (as_folded next) }
{
    match before {
        Folded::NoConstant => Folded::NoConstant,
        Folded::Undefined => match next {
            Folded::NoConstant => Folded::NoConstant,
            Folded::Undefined => Folded::Undefined,
            Folded::Known(_) => Folded::Undefined,
        },
        Folded::Known(value) => match next {
            Folded::NoConstant => Folded::NoConstant,
            Folded::Undefined => if_true(value, Folded::Known(1), Folded::Undefined),
            Folded::Known(last) => if_true(value, Folded::Known(1), Folded::Known(last)),
        },
    }
}

/// A choice: both parts are constants, and one of them is evaluated.
pub(crate) fn choose(condition: Folded, first: Folded, second: Folded) -> Folded
    ensures { as_folded result
        ≡ or_undefined (as_folded condition) (as_folded first) (as_folded second) }
{
    match condition {
        Folded::NoConstant => Folded::NoConstant,
        Folded::Undefined => undefined_parts(first, second),
        Folded::Known(value) => part_of(value, first, second),
    }
}

fn undefined_parts(first: Folded, second: Folded) -> Folded
    ensures { as_folded result ≡ or_undefined undefined (as_folded first) (as_folded second) }
{
    match first {
        Folded::NoConstant => Folded::NoConstant,
        Folded::Undefined => match second {
            Folded::NoConstant => Folded::NoConstant,
            Folded::Undefined => Folded::Undefined,
            Folded::Known(_) => Folded::Undefined,
        },
        Folded::Known(_) => match second {
            Folded::NoConstant => Folded::NoConstant,
            Folded::Undefined => Folded::Undefined,
            Folded::Known(_) => Folded::Undefined,
        },
    }
}

fn part_of(value: i128, first: Folded, second: Folded) -> Folded
    ensures { as_folded result ≡ chosen value (as_folded first) (as_folded second) }
{
    match first {
        Folded::NoConstant => Folded::NoConstant,
        Folded::Undefined => match second {
            Folded::NoConstant => Folded::NoConstant,
            Folded::Undefined => if_true(value, Folded::Undefined, Folded::Undefined),
            Folded::Known(y) => if_true(value, Folded::Undefined, Folded::Known(y)),
        },
        Folded::Known(x) => match second {
            Folded::NoConstant => Folded::NoConstant,
            Folded::Undefined => if_true(value, Folded::Known(x), Folded::Undefined),
            Folded::Known(y) => if_true(value, Folded::Known(x), Folded::Known(y)),
        },
    }
}

fn if_true(value: i128, first: Folded, second: Folded) -> Folded
    ensures { as_folded result
        ≡ (if truth value then as_folded first else as_folded second) }
{
    if truth(value) { first } else { second }
}

fn unless_true(value: i128, first: Folded, second: Folded) -> Folded
    ensures { as_folded result
        ≡ (if not (truth value) then as_folded first else as_folded second) }
{
    if truth(value) { second } else { first }
}
