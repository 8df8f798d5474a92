//! What no clause says of types: that calls succeed, worked rows and shared ends, and the order of the refusals.

use porch_types::{Members, Ty, TypeFault, Types};
use std::alloc::{AllocError, Global};
use std::process::Abort;
use std::test::Fail;

const CHAR: u32 = 0;

const INT: u32 = 4;

const LONG: u32 = 6;

fn add(rt: &impl Abort, types: &mut Types, ty: Ty) -> Result<u32, TypeFault> {
    assert!(rt; types.len() < 1_000_000);
    types.add(ty)
}

fn array(rt: &impl Abort, types: &mut Types, of: u32, count: u32) -> Result<u32, TypeFault> {
    add(rt, types, Ty::Array { of, count })
}

fn record(rt: &impl Abort, alloc: Global, types: &mut Types, members: &[u32]) -> Result<u32, Fail> {
    let members = Members::from_vec(members.to_vec(alloc)?);
    Ok(add(rt, types, Ty::Struct { members })?)
}

/// A root and a count, and a place and a pointee there.
type At = (u32, u64, u64, u32);

// Numbers of the types that are added first, second and third.
const FIRST: u32 = 8;

const SECOND: u32 = 9;

const THIRD: u32 = 10;

fn row(rt: &impl Abort, types: &Types, at: &At) -> Option<(u64, u64)> {
    let (root, count, place, pointee) = *at;
    assert!(rt; (root as usize) < types.len());
    types
        .row_of(root, count, place, pointee)
        .map(|row| (row.first, row.len))
}

fn shared(rt: &impl Abort, types: &Types, at: &At) -> bool {
    let (root, count, place, pointee) = *at;
    assert!(rt; (root as usize) < types.len());
    assert!(rt; (pointee as usize) < types.len());
    types.shared_end(root, count, place, pointee)
}

fn expect_rows(rt: &impl Abort, types: &Types, rows: &[(At, Option<(u64, u64)>)]) {
    for (at, want) in rows {
        assert_eq!(rt; row(rt, types, at), *want, "{at:?}");
    }
}

fn expect_shared(rt: &impl Abort, types: &Types, rows: &[(At, bool)]) {
    for (at, want) in rows {
        assert_eq!(rt; shared(rt, types, at), *want, "{at:?}");
    }
}

// `struct t {char c; long v[3];}`, two of them in one allocation: `v` is the first type, and the struct the second.
static ROWS_OF_AN_ALLOCATION: [(At, Option<(u64, u64)>); 5] = [
    ((SECOND, 2, 7, LONG), Some((5, 3))),
    ((SECOND, 2, 4, SECOND), Some((0, 2))),
    ((SECOND, 2, 5, FIRST), Some((5, 1))),
    ((SECOND, 2, 6, FIRST), None),
    ((SECOND, 2, 8, CHAR), None),
];

static ENDS_IN_AN_ALLOCATION: [(At, bool); 3] = [
    ((SECOND, 2, 7, LONG), false),
    ((SECOND, 2, 3, LONG), false),
    ((SECOND, 2, 0, SECOND), true),
];

fn add_struct_of_longs(rt: &impl Abort, alloc: Global, types: &mut Types) -> Result<(), Fail> {
    let v = array(rt, types, LONG, 3)?;
    let t = record(rt, alloc, types, &[CHAR, v])?;
    assert_eq!(rt; [v, t], [FIRST, SECOND]);
    Ok(())
}

#[test]
fn rows_of_an_allocation(rt: HostRuntime) -> Result<(), Fail> {
    let mut types = Types::new(rt.alloc())?;
    add_struct_of_longs(&rt, rt.alloc(), &mut types)?;
    expect_rows(&rt, &types, &ROWS_OF_AN_ALLOCATION);
    expect_shared(&rt, &types, &ENDS_IN_AN_ALLOCATION);
    Ok(())
}

// `struct s {int x; long y; int a[3];}; struct s s[2];`: one past `s[0].a` is where `s[1].x` begins. `a` is the first type,
// the struct the second, and the array of it the third.
static ROWS_THAT_MEET: [(At, Option<(u64, u64)>); 4] = [
    ((THIRD, 1, 4, INT), Some((2, 3))),
    ((THIRD, 1, 5, INT), Some((5, 1))),
    ((THIRD, 1, 5, SECOND), Some((0, 2))),
    ((THIRD, 1, 6, INT), None),
];

static ENDS_THAT_MEET: [(At, bool); 4] = [
    ((THIRD, 1, 4, INT), true),
    ((THIRD, 1, 9, INT), false),
    ((THIRD, 1, 5, INT), false),
    ((SECOND, u64::MAX, u64::MAX, INT), false),
];

fn add_array_of_structs(rt: &impl Abort, alloc: Global, types: &mut Types) -> Result<(), Fail> {
    let a = array(rt, types, INT, 3)?;
    let s = record(rt, alloc, types, &[INT, LONG, a])?;
    let both = array(rt, types, s, 2)?;
    assert_eq!(rt; [a, s, both], [FIRST, SECOND, THIRD]);
    Ok(())
}

#[test]
fn ends_that_are_shared(rt: HostRuntime) -> Result<(), Fail> {
    let mut types = Types::new(rt.alloc())?;
    add_array_of_structs(&rt, rt.alloc(), &mut types)?;
    expect_rows(&rt, &types, &ROWS_THAT_MEET);
    expect_shared(&rt, &types, &ENDS_THAT_MEET);
    Ok(())
}

// An array of one in a struct, in an array of one in a struct, and so on.
fn add_deep(rt: &impl Abort, alloc: Global, types: &mut Types) -> Result<u32, Fail> {
    let mut ty = INT;
    for _ in 0..25_000 {
        ty = array(rt, types, ty, 1)?;
        ty = record(rt, alloc, types, &[ty])?;
    }
    Ok(array(rt, types, ty, 1_048_576)?)
}

// Types that are nested deep, and many elements, take no stack and no time.
#[test]
fn deep_types(rt: HostRuntime) -> Result<(), Fail> {
    let mut types = Types::new(rt.alloc())?;
    let wide = add_deep(&rt, rt.alloc(), &mut types)?;
    let at = (wide, u64::MAX, 1_048_576_000_007, INT);
    assert_eq!(rt; row(&rt, &types, &at), Some((1_048_576_000_007, 1)));
    assert!(rt; shared(&rt, &types, &at));
    Ok(())
}

/// A type that is to be added.
enum New {
    Array(u32, u32),
    Struct(&'static [u32]),
    Pointer(u32),
}

fn add_new(
    rt: &impl Abort,
    alloc: Global,
    types: &mut Types,
    new: &New,
) -> Result<Result<u32, TypeFault>, AllocError> {
    match new {
        New::Array(of, count) => Ok(array(rt, types, *of, *count)),
        New::Struct(members) => {
            let members = Members::from_vec(members.to_vec(alloc)?);
            Ok(add(rt, types, Ty::Struct { members }))
        }
        New::Pointer(to) => Ok(add(rt, types, Ty::Pointer { to: *to })),
    }
}

// Each is tried after the ones before it.
static TRIED: [(New, Result<u32, TypeFault>); 9] = [
    (New::Array(8, 0), Err(TypeFault::Later { number: 8 })),
    (New::Array(INT, 0), Err(TypeFault::Empty)),
    (
        New::Array(INT, 1_048_577),
        Err(TypeFault::TooLarge { leaves: 1_048_577 }),
    ),
    (
        New::Struct(&[INT, 9, 8]),
        Err(TypeFault::Later { number: 9 }),
    ),
    (New::Struct(&[]), Err(TypeFault::Empty)),
    (New::Pointer(4_000_000_000), Ok(8)),
    (New::Array(8, 1_048_576), Ok(9)),
    (
        New::Struct(&[9, INT]),
        Err(TypeFault::TooLarge { leaves: 1_048_577 }),
    ),
    (
        New::Array(9, u32::MAX),
        Err(TypeFault::TooLarge {
            leaves: 4_503_599_626_321_920,
        }),
    ),
];

fn try_each(rt: &impl Abort, alloc: Global, types: &mut Types) -> Result<(), AllocError> {
    for (number, (new, want)) in TRIED.iter().enumerate() {
        let got = add_new(rt, alloc, types, new)?;
        assert_eq!(rt; got, *want, "row {number}");
    }
    Ok(())
}

#[test]
fn refusals_in_order(rt: HostRuntime) -> Result<(), Fail> {
    let mut types = Types::new(rt.alloc())?;
    assert_eq!(rt; types.len(), 8);
    try_each(&rt, rt.alloc(), &mut types)?;
    assert_eq!(rt; types.len(), 10);
    Ok(())
}
