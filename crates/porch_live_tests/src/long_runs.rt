//! Long runs, in which what has ended costs neither memory nor time.

use porch_live::{Store, Value};
use porch_types::{INT, Types};
use std::process::Abort;
use std::test::Fail;

const KEPT: usize = 1000;

/// A million allocations, of which a thousand live at a time, and the oldest ends next.
#[test]
fn a_million_allocations_end(rt: HostRuntime) -> Result<(), Fail> {
    let alloc = rt.alloc();
    let types = Types::new(alloc)?;
    let mut store = Store::new(alloc, Vec::new(alloc));
    let mut kept = Vec::new(alloc);
    for _ in 0..KEPT {
        let block = store
            .allocate(alloc, &types, INT, true, 1)?
            .expect(&rt, "no act");
        kept.push(block)?;
    }
    for _ in 0..1000 {
        for slot in kept.iter_mut() {
            let block = store
                .allocate(alloc, &types, INT, true, 1)?
                .expect(&rt, "no act");
            store.store(block, Value::Number(1))?.expect(&rt, "no act");
            store.release(*slot).expect(&rt, "no act");
            *slot = block;
        }
    }
    for block in &kept {
        assert!(rt; matches!(store.load(*block), Ok(Value::Number(1))));
    }
    Ok(())
}

/// A million calls, a hundred of them in one another.
#[test]
fn a_million_calls_end(rt: HostRuntime) -> Result<(), Fail> {
    let alloc = rt.alloc();
    let mut store = Store::new(alloc, Vec::new(alloc));
    for _ in 0..100 {
        store.enter(Vec::new(alloc))?;
    }
    for _ in 0..1_000_000 {
        store.enter(Vec::new(alloc))?;
        store.leave();
    }
    assert!(rt; store.innermost() == 99);
    Ok(())
}
