//! Worked results of C's operators and conversions, for each set of widths.

use porch_types::Kind;
use porch_values::{
    Act, Op, Widths, apply, complement, convert, greatest, is_operand, is_right, is_value, least,
};
use std::process::Abort;

const NARROW: Widths = Widths {
    narrow: true,
    wide: false,
};

const WIDE: Widths = Widths {
    narrow: false,
    wide: true,
};

const BOTH: Widths = Widths {
    narrow: true,
    wide: true,
};

type Row = (Op, Kind, i128, i128, Result<i128, Act>);

static OF_ANY_WIDTH: [Row; 36] = [
    (Op::Add, Kind::Int, 2147483646, 1, Ok(2147483647)),
    (Op::Add, Kind::Int, 2147483647, 1, Err(Act::Overflow)),
    (Op::Add, Kind::Int, -2147483648, -1, Err(Act::Overflow)),
    (Op::Sub, Kind::Int, -2147483648, 1, Err(Act::Overflow)),
    (Op::Sub, Kind::Int, 0, -2147483648, Err(Act::Overflow)),
    (Op::Mul, Kind::Int, 65536, 32768, Err(Act::Overflow)),
    (Op::Mul, Kind::Int, -65536, 32768, Ok(-2147483648)),
    (Op::Add, Kind::UInt, 4294967295, 1, Ok(0)),
    (Op::Sub, Kind::UInt, 0, 1, Ok(4294967295)),
    (Op::Mul, Kind::UInt, 4294967295, 4294967295, Ok(1)),
    (Op::Div, Kind::Int, -7, 2, Ok(-3)),
    (Op::Rem, Kind::Int, -7, 2, Ok(-1)),
    (Op::Rem, Kind::Int, 7, -2, Ok(1)),
    (Op::Div, Kind::Int, -2147483648, -1, Err(Act::Overflow)),
    (Op::Rem, Kind::Int, -2147483648, -1, Err(Act::Overflow)),
    (Op::Rem, Kind::Int, -2147483647, -1, Ok(0)),
    (Op::Div, Kind::Int, -2147483648, 0, Err(Act::Divide)),
    (Op::Rem, Kind::ULong, 5, 0, Err(Act::Divide)),
    (Op::Div, Kind::UInt, 4294967295, 2, Ok(2147483647)),
    (Op::And, Kind::Int, -1, 255, Ok(255)),
    (Op::And, Kind::Int, -8, -4, Ok(-8)),
    (Op::Or, Kind::Int, -8, 3, Ok(-5)),
    (Op::Xor, Kind::Int, -1, 5, Ok(-6)),
    (Op::Xor, Kind::UInt, 4294967295, 5, Ok(4294967290)),
    (Op::Shl, Kind::Int, 1, 30, Ok(1073741824)),
    (Op::Shl, Kind::Int, 1, 31, Err(Act::Overflow)),
    (Op::Shl, Kind::Int, -1, 31, Ok(-2147483648)),
    (Op::Shl, Kind::Int, 0, 32, Err(Act::Shift)),
    (Op::Shl, Kind::Int, 1, -1, Err(Act::Shift)),
    (Op::Shl, Kind::Int, 1, 18446744073709551615, Err(Act::Shift)),
    (Op::Shr, Kind::Int, 1, -9223372036854775808, Err(Act::Shift)),
    (Op::Shl, Kind::UInt, 3, 31, Ok(2147483648)),
    (Op::Shr, Kind::UInt, 1, 32, Err(Act::Shift)),
    (Op::Shr, Kind::Int, -7, 1, Ok(-4)),
    (Op::Shr, Kind::Int, -1, 31, Ok(-1)),
    (Op::Shr, Kind::UInt, 4294967295, 31, Ok(1)),
];

static OF_32_BITS: [Row; 9] = [
    (
        Op::Add,
        Kind::Long,
        2000000000,
        1000000000,
        Err(Act::Overflow),
    ),
    (Op::Sub, Kind::ULong, 0, 1, Ok(4294967295)),
    (Op::Add, Kind::ULong, 4294967295, 1, Ok(0)),
    (Op::Mul, Kind::ULong, 4294967295, 4294967295, Ok(1)),
    (Op::Div, Kind::Long, -2147483648, -1, Err(Act::Overflow)),
    (Op::Rem, Kind::Long, -2147483648, -1, Err(Act::Overflow)),
    (Op::Shl, Kind::Long, 1, 31, Err(Act::Overflow)),
    (Op::Shl, Kind::Long, 1, 32, Err(Act::Shift)),
    (Op::Shl, Kind::ULong, 2, 31, Ok(0)),
];

static OF_64_BITS: [Row; 18] = [
    (Op::Add, Kind::Long, 2000000000, 1000000000, Ok(3000000000)),
    (
        Op::Add,
        Kind::Long,
        9223372036854775807,
        1,
        Err(Act::Overflow),
    ),
    (Op::Sub, Kind::ULong, 0, 1, Ok(18446744073709551615)),
    (Op::Add, Kind::ULong, 4294967295, 1, Ok(4294967296)),
    (
        Op::Mul,
        Kind::ULong,
        18446744073709551615,
        18446744073709551615,
        Ok(1),
    ),
    (
        Op::Mul,
        Kind::Long,
        -4294967296,
        2147483648,
        Ok(-9223372036854775808),
    ),
    (
        Op::Mul,
        Kind::Long,
        4294967296,
        2147483648,
        Err(Act::Overflow),
    ),
    (Op::Div, Kind::Long, -2147483648, -1, Ok(2147483648)),
    (Op::Rem, Kind::Long, -2147483648, -1, Ok(0)),
    (
        Op::Div,
        Kind::Long,
        -9223372036854775808,
        -1,
        Err(Act::Overflow),
    ),
    (
        Op::Rem,
        Kind::Long,
        -9223372036854775808,
        -1,
        Err(Act::Overflow),
    ),
    (Op::Shl, Kind::Long, 1, 62, Ok(4611686018427387904)),
    (Op::Shl, Kind::Long, 1, 63, Err(Act::Overflow)),
    (Op::Shl, Kind::Long, 1, 64, Err(Act::Shift)),
    (Op::Shl, Kind::ULong, 2, 31, Ok(4294967296)),
    (
        Op::Shl,
        Kind::ULong,
        18446744073709551615,
        63,
        Ok(9223372036854775808),
    ),
    (Op::Shr, Kind::ULong, 18446744073709551615, 63, Ok(1)),
    (
        Op::Or,
        Kind::ULong,
        18446744073709551614,
        1,
        Ok(18446744073709551615),
    ),
];

static OF_EITHER: [Row; 13] = [
    (
        Op::Add,
        Kind::Long,
        2000000000,
        1000000000,
        Err(Act::Overflow),
    ),
    (Op::Sub, Kind::ULong, 0, 1, Err(Act::Narrow)),
    (Op::Add, Kind::ULong, 4294967295, 1, Err(Act::Narrow)),
    (
        Op::Mul,
        Kind::ULong,
        4294967295,
        4294967295,
        Err(Act::Narrow),
    ),
    (Op::Mul, Kind::ULong, 65535, 65537, Ok(4294967295)),
    (Op::Div, Kind::Long, -2147483648, -1, Err(Act::Overflow)),
    (Op::Rem, Kind::Long, -2147483648, -1, Err(Act::Overflow)),
    (Op::Shl, Kind::Long, 1, 30, Ok(1073741824)),
    (Op::Shl, Kind::Long, 1, 31, Err(Act::Overflow)),
    (Op::Shl, Kind::Long, 1, 32, Err(Act::Shift)),
    (Op::Shl, Kind::ULong, 1, 31, Ok(2147483648)),
    (Op::Shl, Kind::ULong, 2, 31, Err(Act::Narrow)),
    (Op::Rem, Kind::ULong, 4294967295, 10, Ok(5)),
];

/// A kind, a value, and what becomes of it where `long` has 32 bits, 64, or either.
type RowOfWidths = (
    Kind,
    i128,
    Result<i128, Act>,
    Result<i128, Act>,
    Result<i128, Act>,
);

static CONVERSIONS: [RowOfWidths; 13] = [
    (Kind::Char, 200, Ok(-56), Ok(-56), Ok(-56)),
    (Kind::UChar, -1, Ok(255), Ok(255), Ok(255)),
    (Kind::Short, 40000, Ok(-25536), Ok(-25536), Ok(-25536)),
    (Kind::UShort, -1, Ok(65535), Ok(65535), Ok(65535)),
    (
        Kind::Int,
        3000000000,
        Ok(-1294967296),
        Ok(-1294967296),
        Ok(-1294967296),
    ),
    (Kind::Int, 18446744073709551615, Ok(-1), Ok(-1), Ok(-1)),
    (
        Kind::UInt,
        -1,
        Ok(4294967295),
        Ok(4294967295),
        Ok(4294967295),
    ),
    (
        Kind::Long,
        3000000000,
        Err(Act::Overflow),
        Ok(3000000000),
        Err(Act::Overflow),
    ),
    (
        Kind::Long,
        -2147483648,
        Ok(-2147483648),
        Ok(-2147483648),
        Ok(-2147483648),
    ),
    (
        Kind::Long,
        9223372036854775808,
        Err(Act::Overflow),
        Err(Act::Overflow),
        Err(Act::Overflow),
    ),
    (
        Kind::ULong,
        -1,
        Ok(4294967295),
        Ok(18446744073709551615),
        Err(Act::Narrow),
    ),
    (Kind::ULong, 5, Ok(5), Ok(5), Ok(5)),
    (
        Kind::ULong,
        4294967296,
        Ok(0),
        Ok(4294967296),
        Err(Act::Narrow),
    ),
];

// The result, where the operands are values of the kind.
fn tried(op: Op, kind: Kind, a: i128, b: i128, widths: Widths) -> Option<Result<i128, Act>> {
    if is_operand(kind) && is_value(kind, a, widths) && is_right(op, kind, b, widths) {
        Some(apply(op, kind, a, b, widths))
    } else {
        None
    }
}

fn expect_rows(rt: &impl Abort, rows: &[Row], widths: Widths) {
    for (op, kind, a, b, want) in rows {
        let got = tried(*op, *kind, *a, *b, widths);
        assert_eq!(rt; got, Some(*want), "{op:?} {kind:?} {a} {b}");
    }
}

#[test]
fn results_that_no_width_changes(rt: HostRuntime) {
    expect_rows(&rt, &OF_ANY_WIDTH, NARROW);
    expect_rows(&rt, &OF_ANY_WIDTH, WIDE);
    expect_rows(&rt, &OF_ANY_WIDTH, BOTH);
}

#[test]
fn results_where_long_has_32_bits(rt: HostRuntime) {
    expect_rows(&rt, &OF_32_BITS, NARROW);
}

#[test]
fn results_where_long_has_64_bits(rt: HostRuntime) {
    expect_rows(&rt, &OF_64_BITS, WIDE);
}

#[test]
fn results_where_long_has_either(rt: HostRuntime) {
    expect_rows(&rt, &OF_EITHER, BOTH);
}

#[test]
fn conversions(rt: HostRuntime) {
    for (kind, value, narrow, wide, both) in &CONVERSIONS {
        let got = [
            convert(*kind, *value, NARROW),
            convert(*kind, *value, WIDE),
            convert(*kind, *value, BOTH),
        ];
        assert_eq!(rt; got, [*narrow, *wide, *both], "{kind:?} {value}");
    }
}

static COMPLEMENTS: [RowOfWidths; 5] = [
    (Kind::Int, 0, Ok(-1), Ok(-1), Ok(-1)),
    (
        Kind::Int,
        -2147483648,
        Ok(2147483647),
        Ok(2147483647),
        Ok(2147483647),
    ),
    (
        Kind::UInt,
        0,
        Ok(4294967295),
        Ok(4294967295),
        Ok(4294967295),
    ),
    (Kind::Long, 5, Ok(-6), Ok(-6), Ok(-6)),
    (
        Kind::ULong,
        0,
        Ok(4294967295),
        Ok(18446744073709551615),
        Err(Act::Narrow),
    ),
];

// The complement, where the operand is a value of the kind.
fn tried_complement(kind: Kind, value: i128, widths: Widths) -> Option<Result<i128, Act>> {
    if is_operand(kind) && is_value(kind, value, widths) {
        Some(complement(kind, value, widths))
    } else {
        None
    }
}

#[test]
fn complements(rt: HostRuntime) {
    for (kind, value, narrow, wide, both) in &COMPLEMENTS {
        let got = [
            tried_complement(*kind, *value, NARROW),
            tried_complement(*kind, *value, WIDE),
            tried_complement(*kind, *value, BOTH),
        ];
        assert_eq!(rt;
            got,
            [Some(*narrow), Some(*wide), Some(*both)],
            "{kind:?} {value}"
        );
    }
}

#[test]
fn ranges(rt: HostRuntime) {
    assert_eq!(rt; least(Kind::Char, 32), -128);
    assert_eq!(rt; greatest(Kind::UShort, 64), 65535);
    assert_eq!(rt; least(Kind::Long, 32), -2147483648);
    assert_eq!(rt; least(Kind::Long, 64), -9223372036854775808);
    assert_eq!(rt; greatest(Kind::ULong, 32), 4294967295);
    assert_eq!(rt; greatest(Kind::ULong, 64), 18446744073709551615);
}
