//! Each call of the store, by worked cases.

use porch_live::{Home, Object, Root, Store, Value};
use porch_types::{INT, Ty, Types};
use porch_values::Act;
use std::alloc::{AllocError, Global};
use std::process::Abort;
use std::test::Fail;

const CHAR: u32 = 0;

/// The kinds, and as types 8 and 9 three ints and three chars in a row.
fn types_with_arrays(alloc: Global) -> Result<Types, AllocError> {
    let mut types = Types::new(alloc)?;
    add(&mut types, Ty::Array { of: INT, count: 3 })?;
    add(&mut types, Ty::Array { of: CHAR, count: 3 })?;
    Ok(types)
}

fn add(types: &mut Types, ty: Ty) -> Result<(), AllocError> {
    if types.len() > 1000 {
        return Err(AllocError);
    }
    match types.add(ty) {
        Ok(_) => Ok(()),
        Err(_) => Err(AllocError),
    }
}

/// Global 0 is two rows of three ints without a value, global 1 the text "hi".
fn store_with_globals(alloc: Global, types: &Types) -> Result<Store, AllocError> {
    let mut text = Object::zeroed(alloc, types, Root { ty: 9, count: 1 })?;
    text.set_leaf(0, Value::Number(104))?;
    text.set_leaf(1, Value::Number(105 + 256))?;
    let mut globals = Vec::new(alloc);
    push(
        &mut globals,
        Object::fresh(alloc, types, Root { ty: 8, count: 2 })?,
    )?;
    push(&mut globals, text)?;
    Ok(Store::new(alloc, globals))
}

fn push(objects: &mut Vec<Object>, object: Object) -> Result<(), AllocError> {
    match objects.push(object) {
        Ok(()) => Ok(()),
        Err(_) => Err(AllocError),
    }
}

fn global(number: u32, leaf: u64) -> Value {
    Value::Pointer {
        home: Home::Global(number),
        leaf,
    }
}

#[test]
fn leaves_are_read_and_written(rt: HostRuntime) -> Result<(), Fail> {
    let alloc = rt.alloc();
    let types = types_with_arrays(alloc)?;
    let mut store = store_with_globals(alloc, &types)?;
    try_leaves(&rt, alloc, &types, &mut store)?;
    Ok(())
}

fn try_leaves<R: Abort>(
    rt: &R,
    alloc: Global,
    types: &Types,
    store: &mut Store,
) -> Result<(), AllocError> {
    assert!(rt; matches!(store.load(global(0, 1)), Err(Act::Indeterminate)));
    assert!(rt; matches!(store.load(Value::Null), Err(Act::Access)));
    assert!(rt; matches!(store.store(global(0, 1), Value::Number(5))?, Ok(())));
    assert!(rt; matches!(store.load(global(0, 1)), Ok(Value::Number(5))));
    assert!(rt;
        matches!(
            store.store(global(0, 1), Value::Indeterminate)?,
            Err(Act::Indeterminate)
        )
    );
    assert!(rt; matches!(store.store(Value::Null, Value::Null)?, Err(Act::Access)));
    assert!(rt; matches!(store.leaf(Home::Global(0), 1), Value::Number(5)));
    assert!(rt; matches!(store.leaf(Home::Global(0), 6), Value::Indeterminate));
    assert!(rt; matches!(store.copy(alloc, 2, global(0, 3), global(0, 0))?, Ok(())));
    assert!(rt; matches!(store.load(global(0, 3)), Err(Act::Indeterminate)));
    assert!(rt; matches!(store.load(global(0, 4)), Ok(Value::Number(5))));
    assert!(rt;
        matches!(
            store.copy(alloc, 1, global(0, 3), Value::Null)?,
            Err(Act::Access)
        )
    );
    assert!(rt; matches!(store.copy(alloc, 2, global(0, 5), global(0, 0)), Err(_)));
    Ok(())
}

#[test]
fn pointers_stay_in_their_rows(rt: HostRuntime) -> Result<(), Fail> {
    let alloc = rt.alloc();
    let types = types_with_arrays(alloc)?;
    let mut store = store_with_globals(alloc, &types)?;
    try_rows(&rt, alloc, &types, &mut store)?;
    Ok(())
}

fn try_rows<R: Abort>(
    rt: &R,
    alloc: Global,
    types: &Types,
    store: &mut Store,
) -> Result<(), AllocError> {
    let first = global(0, 0);
    assert!(rt;
        matches!(
            store.step(types, INT, first, 2),
            Ok(Value::Pointer {
                home: Home::Global(0),
                leaf: 2
            })
        )
    );
    assert!(rt; matches!(store.step(types, INT, first, 4), Err(Act::Row)));
    assert!(rt; matches!(store.step(types, INT, first, -1), Err(Act::Row)));
    assert!(rt; matches!(store.step(types, INT, first, i128::MAX), Err(Act::Row)));
    assert!(rt; matches!(store.step(types, INT, Value::Null, 0), Err(Act::Row)));
    assert!(rt;
        matches!(
            store.member(first, 2)?,
            Ok(Value::Pointer {
                home: Home::Global(0),
                leaf: 2
            })
        )
    );
    assert!(rt; matches!(store.member(Value::Null, 2)?, Err(Act::Access)));
    assert!(rt; matches!(store.difference(types, INT, global(0, 2), first), Ok(2)));
    assert!(rt;
        matches!(
            store.difference(types, INT, global(0, 3), first),
            Err(Act::Relation)
        )
    );
    assert!(rt; matches!(store.equality(types, INT, first, first), Ok(true)));
    assert!(rt; matches!(store.equality(types, INT, first, Value::Null), Ok(false)));
    let end = store.step(types, INT, first, 3).expect(rt, "no act");
    assert!(rt;
        matches!(
            end,
            Value::Past {
                home: Home::Global(0),
                leaf: 2,
                until: Some(0)
            }
        )
    );
    assert!(rt;
        matches!(
            store.equality(types, INT, end, global(0, 3)),
            Err(Act::Compare)
        )
    );
    assert!(rt; matches!(store.load(end), Err(Act::Access)));
    store.reach_checkpoint()?;
    assert!(rt; matches!(store.seen(end), Value::Indeterminate));
    assert!(rt; store.checkpoints() == 1);
    Ok(())
}

#[test]
fn texts_end_at_a_zero_byte(rt: HostRuntime) -> Result<(), Fail> {
    let alloc = rt.alloc();
    let types = types_with_arrays(alloc)?;
    let mut store = store_with_globals(alloc, &types)?;
    try_texts(&rt, alloc, &types, &mut store)?;
    Ok(())
}

fn try_texts<R: Abort>(
    rt: &R,
    alloc: Global,
    types: &Types,
    store: &mut Store,
) -> Result<(), AllocError> {
    let text = store
        .text(alloc, types, CHAR, global(1, 0))?
        .expect(rt, "no act");
    assert!(rt; text.as_slice() == b"hi".as_slice());
    store.set_leaf(Home::Global(1), 2, Value::Number(33))?;
    assert!(rt;
        matches!(
            store.text(alloc, types, CHAR, global(1, 0))?,
            Err(Act::Access)
        )
    );
    store.set_leaf(Home::Global(1), 1, Value::Indeterminate)?;
    assert!(rt;
        matches!(
            store.text(alloc, types, CHAR, global(1, 0))?,
            Err(Act::Indeterminate)
        )
    );
    assert!(rt;
        matches!(
            store.text(alloc, types, CHAR, Value::Null)?,
            Err(Act::Access)
        )
    );
    Ok(())
}

#[test]
fn calls_come_and_go(rt: HostRuntime) -> Result<(), Fail> {
    let alloc = rt.alloc();
    let types = types_with_arrays(alloc)?;
    let mut store = store_with_globals(alloc, &types)?;
    try_calls(&rt, alloc, &types, &mut store)?;
    Ok(())
}

fn try_calls<R: Abort>(
    rt: &R,
    alloc: Global,
    types: &Types,
    store: &mut Store,
) -> Result<(), AllocError> {
    assert!(rt; store.innermost() == 0);
    let mut variables = Vec::new(alloc);
    push(
        &mut variables,
        Object::fresh(alloc, types, Root { ty: INT, count: 1 })?,
    )?;
    store.enter(variables)?;
    store.enter(Vec::new(alloc))?;
    assert!(rt; store.innermost() == 1);
    let outer = Home::Call {
        call: 0,
        variable: 0,
    };
    let variable = Value::Pointer {
        home: outer,
        leaf: 0,
    };
    store.set_leaf(outer, 0, Value::Number(7))?;
    assert!(rt; matches!(store.load(variable), Ok(Value::Number(7))));
    store.leave();
    assert!(rt; store.innermost() == 0);
    assert!(rt; store.is_alive(outer));
    store.leave();
    assert!(rt; !store.is_alive(outer));
    assert!(rt; matches!(store.load(variable), Err(Act::Indeterminate)));
    store.leave();
    Ok(())
}

#[test]
fn allocations_come_and_go(rt: HostRuntime) -> Result<(), Fail> {
    let alloc = rt.alloc();
    let types = types_with_arrays(alloc)?;
    let mut store = store_with_globals(alloc, &types)?;
    try_allocations(&rt, alloc, &types, &mut store)?;
    Ok(())
}

fn try_allocations<R: Abort>(
    rt: &R,
    alloc: Global,
    types: &Types,
    store: &mut Store,
) -> Result<(), AllocError> {
    assert!(rt; matches!(store.allocate(alloc, types, INT, true, 0)?, Err(Act::Count)));
    assert!(rt;
        matches!(
            store.allocate(alloc, types, INT, true, 2_147_483_648)?,
            Err(Act::Count)
        )
    );
    let block = store
        .allocate(alloc, types, INT, true, 2)?
        .expect(rt, "no act");
    let other = store
        .allocate(alloc, types, 8, false, 1)?
        .expect(rt, "no act");
    assert!(rt;
        matches!(
            block,
            Value::Pointer {
                home: Home::Block(0),
                leaf: 0
            }
        )
    );
    assert!(rt; matches!(store.load(block), Ok(Value::Number(0))));
    assert!(rt; matches!(store.load(other), Err(Act::Indeterminate)));
    let inside = Value::Pointer {
        home: Home::Block(0),
        leaf: 1,
    };
    assert!(rt; matches!(store.release(inside), Err(Act::Free)));
    assert!(rt; matches!(store.release(global(0, 0)), Err(Act::Free)));
    assert!(rt; matches!(store.release(Value::Null), Ok(())));
    assert!(rt; matches!(store.release(block), Ok(())));
    assert!(rt; matches!(store.release(block), Err(Act::Indeterminate)));
    assert!(rt; store.is_alive(Home::Block(1)));
    assert!(rt; matches!(store.release(other), Ok(())));
    Ok(())
}
