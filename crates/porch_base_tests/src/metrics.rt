//! Worked places of leaves, under the built-in layouts and an odd one.

ghost use Rattle.porch_layout.specs.Layouts.{IsLayout};

use porch_layout::{Layout, built_in};
use porch_metrics::Metrics;
use porch_types::{Members, Ty, TypeFault, Types};
use std::alloc::{AllocError, Global};
use std::process::Abort;
use std::test::Fail;

const CHAR: u32 = 0;

const LONG: u32 = 6;

fn add(rt: &impl Abort, types: &mut Types, ty: Ty) -> Result<u32, TypeFault> {
    assert!(rt; types.len() < 1_000_000);
    types.add(ty)
}

// `struct t {char c; long v[3];}`
fn sample(rt: &impl Abort, alloc: Global, types: &mut Types) -> Result<u32, Fail> {
    let v = add(rt, types, Ty::Array { of: LONG, count: 3 })?;
    let members = Members::from_vec([CHAR, v].to_vec(alloc)?);
    Ok(add(rt, types, Ty::Struct { members })?)
}

// `struct {char c; struct t *p; struct t t;}`
fn sample_of_samples(
    rt: &impl Abort,
    alloc: Global,
    types: &mut Types,
    t: u32,
) -> Result<u32, Fail> {
    let p = add(rt, types, Ty::Pointer { to: t })?;
    let members = Members::from_vec([CHAR, p, t].to_vec(alloc)?);
    Ok(add(rt, types, Ty::Struct { members })?)
}

// The place of a leaf of a type, in memory and packed, and the type's size, alignment and packed size.
fn measured(
    rt: &impl Abort,
    alloc: Global,
    types: &Types,
    layout: &Layout,
    at: (u32, u64),
) -> Result<([u64; 2], [u64; 3]), AllocError>
    requires { IsLayout layout.now }
{
    let (ty, leaf) = at;
    assert!(rt; (ty as usize) < types.len());
    assert!(rt; leaf < 1_000_000);
    let metrics = Metrics::new(alloc, types, layout)?;
    Ok((
        [metrics.place(ty, leaf), metrics.ucf_place(ty, leaf)],
        [metrics.size(ty), metrics.align(ty), metrics.ucf_size(ty)],
    ))
}

// Where `a[1].v[2]` lies in an allocation of two, which is leaf 7.
static PLACES_OF_AN_ELEMENT: [(&str, u64); 6] = [
    ("le32", 28),
    ("be32", 28),
    ("le64", 56),
    ("be64", 56),
    ("be32p", 24),
    ("le32l", 22),
];

fn place_under(
    rt: &impl Abort,
    alloc: Global,
    types: &Types,
    name: &str,
    at: (u32, u64),
) -> Result<[u64; 2], AllocError> {
    match built_in(name) {
        Some(layout) => Ok(measured(rt, alloc, types, &layout, at)?.0),
        None => Ok([0, 0]),
    }
}

fn expect_places(
    rt: &impl Abort,
    alloc: Global,
    types: &Types,
    at: (u32, u64),
) -> Result<(), AllocError> {
    for (name, place) in &PLACES_OF_AN_ELEMENT {
        let got = place_under(rt, alloc, types, name, at)?;
        assert_eq!(rt; got, [*place, 42], "{name}");
    }
    Ok(())
}

#[test]
fn places_of_an_element(rt: HostRuntime) -> Result<(), Fail> {
    let alloc = rt.alloc();
    let mut types = Types::new(alloc)?;
    let t = sample(&rt, alloc, &mut types)?;
    expect_places(&rt, alloc, &types, (t, 7))?;
    Ok(())
}

// A least alignment of 4 for structs, longs of 4 bytes at even places and pointers of 8.
fn expect_odd(rt: &impl Abort, alloc: Global, types: &mut Types) -> Result<(), Fail> {
    let odd = Layout {
        big: true,
        long: 4,
        pointer: 8,
        align_short: 1,
        align_int: 4,
        align_long: 2,
        align_pointer: 8,
        least_struct: 4,
    };
    let t = sample(rt, alloc, types)?;
    let whole = sample_of_samples(rt, alloc, types, t)?;
    let of_t = measured(rt, alloc, types, &odd, (t, 0))?;
    assert_eq!(rt; of_t, ([0, 0], [16, 4, 25]));
    let of_whole = measured(rt, alloc, types, &odd, (whole, 3))?;
    assert_eq!(rt; of_whole, ([18, 10], [32, 8, 34]));
    Ok(())
}

#[test]
fn an_odd_layout(rt: HostRuntime) -> Result<(), Fail> {
    let mut types = Types::new(rt.alloc())?;
    expect_odd(&rt, rt.alloc(), &mut types)
}
