//! Tables of what bytes of objects name, under built-in layouts and packed.

ghost use Rattle.porch_layout.specs.Layouts.{IsLayout};

use porch_find::{Spot, find, find_ucf};
use porch_layout::{Layout, built_in};
use porch_metrics::Metrics;
use porch_types::{INT, Members, Ty, TypeFault, Types};
use std::alloc::{AllocError, Global};
use std::process::Abort;
use std::test::Fail;

const LONG: u32 = 6;

fn add(rt: &impl Abort, types: &mut Types, ty: Ty) -> Result<u32, TypeFault> {
    assert!(rt; types.len() < 1_000_000);
    types.add(ty)
}

// `struct s {int x; long y; int a[3];} s[2]`, with the number of its type and that of `int[3]`.
fn sample(rt: &impl Abort, alloc: Global, types: &mut Types) -> Result<(u32, u32), Fail> {
    let a = add(rt, types, Ty::Array { of: INT, count: 3 })?;
    let members = Members::from_vec([INT, LONG, a].to_vec(alloc)?);
    let s = add(rt, types, Ty::Struct { members })?;
    Ok((add(rt, types, Ty::Array { of: s, count: 2 })?, a))
}

// What a byte of one object names, in memory and packed.
fn named(
    rt: &impl Abort,
    alloc: Global,
    types: &Types,
    layout: &Layout,
    at: (u32, u64, u32),
) -> Result<[Option<Spot>; 2], AllocError>
    requires { IsLayout layout.now }
{
    let (root, byte, pointee) = at;
    assert!(rt; (root as usize) < types.len());
    assert!(rt; (pointee as usize) < types.len());
    let metrics = Metrics::new(alloc, types, layout)?;
    Ok([
        find(&metrics, root, 1, byte, pointee),
        find_ucf(&metrics, root, 1, byte, pointee),
    ])
}

fn begun(leaf: u64) -> Option<Spot> {
    Some(Spot { leaf, past: false })
}

fn ended(leaf: u64) -> Option<Spot> {
    Some(Spot { leaf, past: true })
}

// The leaves of `s[0]` are x, y, a[0], a[1], a[2], numbered from 0, and those of `s[1]` follow.
#[test]
fn members_and_ends(rt: HostRuntime) -> Result<(), Fail> {
    let alloc = rt.alloc();
    let mut types = Types::new(alloc)?;
    let (root, a) = sample(&rt, alloc, &mut types)?;
    let le32 = built_in("le32").ok_or("le32")?;
    let le64 = built_in("le64").ok_or("le64")?;
    // in le32 `s` has 20 bytes, in a UCF file 24: x at 0, y at 4 of 8 bytes, a at 12
    assert_eq!(rt;
        named(&rt, alloc, &types, &le32, (root, 0, INT))?,
        [begun(0), begun(0)]
    );
    assert_eq!(rt;
        named(&rt, alloc, &types, &le32, (root, 20, INT))?,
        [begun(5), begun(4)]
    );
    assert_eq!(rt;
        named(&rt, alloc, &types, &le32, (root, 40, INT))?,
        [ended(9), begun(8)]
    );
    assert_eq!(rt;
        named(&rt, alloc, &types, &le32, (root, 48, INT))?,
        [None, ended(9)]
    );
    assert_eq!(rt;
        named(&rt, alloc, &types, &le32, (root, 10, INT))?,
        [None, None]
    );
    // the end of x, which is alone in its row
    assert_eq!(rt;
        named(&rt, alloc, &types, &le32, (root, 4, INT))?,
        [ended(0), ended(0)]
    );
    assert_eq!(rt;
        named(&rt, alloc, &types, &le32, (root, 8, a))?,
        [begun(2), None]
    );
    assert_eq!(rt;
        named(&rt, alloc, &types, &le32, (root, 40, a))?,
        [ended(7), None]
    );
    // in le64 `s` has 32 bytes: y at 8, a at 16, and 4 bytes after it; in a UCF file the x of `s[1]`
    // ends at 28
    assert_eq!(rt;
        named(&rt, alloc, &types, &le64, (root, 28, INT))?,
        [None, ended(5)]
    );
    assert_eq!(rt;
        named(&rt, alloc, &types, &le64, (root, 32, INT))?,
        [begun(5), None]
    );
    assert_eq!(rt;
        named(&rt, alloc, &types, &le64, (root, 60, INT))?,
        [ended(9), None]
    );
    Ok(())
}
