//! The types of the temporaries of a function.

ghost use Rattle.std.specs.Prelude.{◌≡◌, ◌++◌, OnOk};
ghost use Rattle.std.specs.List.{range_with_len};
ghost use Rattle.std.specs.Prelude.{replicate};
ghost use Rattle.porch_lowering.specs.Lowering.{pool_types};
ghost use Rattle.porch_emitter.specs.Pools.{most_in};

use crate::pools::Pools;
use sqlite_items::Items;
use std::alloc::AllocError;

/// Puts the types of temporaries behind those of the variables: for each of so many types the most that were in
/// use.
pub fn add_pool_types(
    variables: &mut Items<u32>,
    types: u32,
    pools: &Pools,
) -> Result<(), AllocError>
    ensures { OnOk result (variables.new
        ≡ variables.old ++ pool_types (most_in pools.now) (range_with_len 0 types)) }
{
    for ty in 0..types {
        add_alike(variables, ty, pools.most(ty))?;
    }
    Ok(())
}

fn add_alike(variables: &mut Items<u32>, ty: u32, count: u32) -> Result<(), AllocError>
    ensures { OnOk result (variables.new ≡ variables.old ++ replicate count ty) }
{
    for _ in 0..count {
        variables.push(ty)?;
    }
    Ok(())
}
