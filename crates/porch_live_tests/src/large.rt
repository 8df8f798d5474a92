//! Large objects, which take memory for the leaves that were written.

use porch_live::{Home, Store, Value};
use porch_types::{INT, Members, Ty, Types};
use porch_values::Act;
use std::alloc::{AllocError, Global};
use std::process::Abort;
use std::test::Fail;

/// The greatest count of an allocation.
const MOST: u64 = 2_147_483_647;

/// The struct of a hundred ints and a pointer, and how many leaves it has.
const STRUCT: u32 = 10;

const STRUCT_LEAVES: u64 = 101;

fn add(types: &mut Types, ty: Ty) -> Result<(), AllocError> {
    if types.len() > 1000 {
        return Err(AllocError);
    }
    match types.add(ty) {
        Ok(_) => Ok(()),
        Err(_) => Err(AllocError),
    }
}

fn push(numbers: &mut Vec<u32>, number: u32) -> Result<(), AllocError> {
    match numbers.push(number) {
        Ok(()) => Ok(()),
        Err(_) => Err(AllocError),
    }
}

fn push_members(members: &mut Vec<u32>) -> Result<(), AllocError> {
    push(members, 9)?;
    push(members, 8)
}

/// A pointer to int, a hundred ints in a row, and a struct of both.
fn add_types(types: &mut Types, members: Members) -> Result<(), AllocError> {
    let hundred = Ty::Array {
        of: INT,
        count: 100,
    };
    let both = Ty::Struct { members };
    add(types, Ty::Pointer { to: INT })?;
    add(types, hundred)?;
    add(types, both)
}

fn types_with_a_struct(alloc: Global) -> Result<Types, AllocError> {
    let mut members = Vec::new(alloc);
    push_members(&mut members)?;
    let mut types = Types::new(alloc)?;
    add_types(&mut types, Members::from_vec(members))?;
    Ok(types)
}

fn block(number: u64, leaf: u64) -> Value {
    Value::Pointer {
        home: Home::Block(number),
        leaf,
    }
}

fn try_leaf<R: Abort>(rt: &R, store: &mut Store, leaf: u64) -> Result<(), AllocError> {
    assert!(rt; matches!(store.load(block(0, leaf)), Err(Act::Indeterminate)));
    assert!(rt; matches!(store.store(block(0, leaf), Value::Number(5))?, Ok(())));
    assert!(rt; matches!(store.load(block(0, leaf)), Ok(Value::Number(5))));
    Ok(())
}

#[test]
fn as_many_ints_as_there_may_be(rt: HostRuntime) -> Result<(), Fail> {
    let alloc = rt.alloc();
    let types = types_with_a_struct(alloc)?;
    let mut store = Store::new(alloc, Vec::new(alloc));
    try_ints(&rt, alloc, &types, &mut store)?;
    Ok(())
}

fn try_ints<R: Abort>(
    rt: &R,
    alloc: Global,
    types: &Types,
    store: &mut Store,
) -> Result<(), AllocError> {
    let first = store
        .allocate(alloc, types, INT, false, 2_147_483_647)?
        .expect(rt, "no act");
    try_leaf(rt, store, 0)?;
    try_leaf(rt, store, 1)?;
    try_leaf(rt, store, 64)?;
    try_leaf(rt, store, MOST - 1)?;
    assert!(rt; matches!(store.load(block(0, 63)), Err(Act::Indeterminate)));
    assert!(rt; matches!(store.load(block(0, MOST - 2)), Err(Act::Indeterminate)));
    assert!(rt; matches!(store.leaf(Home::Block(0), MOST), Value::Indeterminate));
    store.forget(Home::Block(0));
    assert!(rt; matches!(store.load(block(0, MOST - 1)), Err(Act::Indeterminate)));
    try_leaf(rt, store, 0)?;
    assert!(rt; matches!(store.release(first), Ok(())));
    Ok(())
}

#[test]
fn as_many_structs_as_there_may_be(rt: HostRuntime) -> Result<(), Fail> {
    let alloc = rt.alloc();
    let types = types_with_a_struct(alloc)?;
    let mut store = Store::new(alloc, Vec::new(alloc));
    try_structs(&rt, alloc, &types, &mut store)?;
    Ok(())
}

fn try_structs<R: Abort>(
    rt: &R,
    alloc: Global,
    types: &Types,
    store: &mut Store,
) -> Result<(), AllocError> {
    let first = store
        .allocate(alloc, types, STRUCT, true, 2_147_483_647)?
        .expect(rt, "no act");
    let last = (MOST - 1) * STRUCT_LEAVES;
    assert!(rt; matches!(store.load(block(0, 99)), Ok(Value::Number(0))));
    assert!(rt; matches!(store.load(block(0, 100)), Ok(Value::Null)));
    assert!(rt; matches!(store.load(block(0, last + 99)), Ok(Value::Number(0))));
    assert!(rt; matches!(store.load(block(0, last + 100)), Ok(Value::Null)));
    assert!(rt; matches!(store.store(block(0, last), Value::Number(3))?, Ok(())));
    assert!(rt;
        matches!(
            store.copy(alloc, STRUCT_LEAVES, first, block(0, last))?,
            Ok(())
        )
    );
    assert!(rt; matches!(store.load(first), Ok(Value::Number(3))));
    assert!(rt; matches!(store.load(block(0, 1)), Ok(Value::Number(0))));
    assert!(rt; matches!(store.load(block(0, 100)), Ok(Value::Null)));
    Ok(())
}

/// A hundred thousand allocations of four thousand ints, all of which live.
#[test]
fn many_large_objects_live(rt: HostRuntime) -> Result<(), Fail> {
    let alloc = rt.alloc();
    let types = types_with_a_struct(alloc)?;
    let mut store = Store::new(alloc, Vec::new(alloc));
    try_many(&rt, alloc, &types, &mut store)?;
    Ok(())
}

fn try_many<R: Abort>(
    rt: &R,
    alloc: Global,
    types: &Types,
    store: &mut Store,
) -> Result<(), AllocError> {
    for _ in 0..100_000 {
        let _ = store
            .allocate(alloc, types, INT, true, 4000)?
            .expect(rt, "no act");
    }
    assert!(rt; matches!(store.store(block(99_999, 0), Value::Number(1))?, Ok(())));
    assert!(rt; matches!(store.load(block(99_999, 0)), Ok(Value::Number(1))));
    assert!(rt; matches!(store.load(block(99_998, 0)), Ok(Value::Number(0))));
    assert!(rt; matches!(store.load(block(99_999, 3999)), Ok(Value::Number(0))));
    Ok(())
}
