//! Names of objects, and what a leaf holds.
ghost use Rattle.std.specs.Prelude.{◌≡◌, if◌then◌else◌, IfSome};
ghost use Rattle.porch_objects.specs.Store.{indeterminate, is_good};
ghost use Rattle.porch_live.specs.declared.value.Value.TheVariants.{Number};
ghost use Rattle.porch_live.specs.Views.{value_of};
ghost use Rattle.porch_live.specs.inside.Uses.{access_after, block_to_free, count_of, there};
ghost use Rattle.porch_live.specs.Answers.{value_in};
ghost use Rattle.porch_objects.specs.Pointers.{if_there};

use porch_values::Act;

/// Which object: a global by its number, a variable of a call, or an allocation. Calls and
/// allocations are counted over the whole run, all from 0.
#[derive(Clone, Copy, Debug)]
pub enum Home {
    Global(u32),
    Call { call: u64, variable: u32 },
    Block(u64),
}

/// What a leaf holds.
#[derive(Clone, Copy, Debug)]
pub enum Value {
    Number(i128),
    Null,
    /// The subobject that begins at a leaf of an object.
    Pointer {
        home: Home,
        leaf: u64,
    },
    /// One past the subobject that begins at a leaf, which is the last of its row. Where that end
    /// is shared with the object that follows, it is good only as long as so many calls of
    /// checkpoint() were reached, and no more.
    Past {
        home: Home,
        leaf: u64,
        until: Option<u64>,
    },
    /// It was given no value, or has none any more.
    Indeterminate,
}

/// Whether an end that is good up to some count of checkpoints is so at this one.
pub(crate) fn is_good(until: Option<u64>, checkpoints: u64) -> bool
    ensures { result ≡ is_good until checkpoints }
{
    match until {
        Some(until) => until == checkpoints,
        None => true,
    }
}

pub(crate) fn if_good(good: bool, value: Value) -> Value
    ensures { value_of result ≡ (if good then value_of value else indeterminate) }
{
    if good { value } else { Value::Indeterminate }
}

/// The allocation that such a pointer frees; none for null.
pub(crate) fn block_to_free(pointer: Value) -> Result<Option<u64>, Act>
    ensures { result ≡ block_to_free (value_of pointer) }
{
    match pointer {
        Value::Number(_) => Err(Act::Free),
        Value::Null => Ok(None),
        Value::Pointer { home, leaf } => {
            match home {
                Home::Global(_) => Err(Act::Free),
                Home::Call {
                    call: _,
                    variable: _,
                } => Err(Act::Free),
                Home::Block(block) => {
                    if leaf == 0 {
                        Ok(Some(block))
                    } else {
                        Err(Act::Free)
                    }
                }
            }
        }
        Value::Past {
            home: _,
            leaf: _,
            until: _,
        } => Err(Act::Free),
        Value::Indeterminate => Err(Act::Indeterminate),
    }
}

/// A count of elements, where it may be one.
pub(crate) fn count_of(count: i128) -> Option<u32>
    ensures { result ≡ count_of count }
{
    if count < 1 || count > 2_147_483_647 {
        None
    } else {
        Some(count as u32)
    }
}

/// The int that a value is, where it is one.
#[inline(always)]
pub(crate) fn int_in(value: &Value) -> Option<i32>
    ensures { IfSome result (λ z. value.now ≡ Number z) }
{
    match value {
        Value::Number(number) => int_of(*number),
        Value::Null => None,
        Value::Pointer { home: _, leaf: _ } => None,
        Value::Past {
            home: _,
            leaf: _,
            until: _,
        } => None,
        Value::Indeterminate => None,
    }
}

#[inline(always)]
fn int_of(number: i128) -> Option<i32>
    ensures { IfSome result (λ z. z ≡ number) }
{
    if number < -2_147_483_648 || number > 2_147_483_647 {
        None
    } else {
        Some(number as i32)
    }
}

/// A value that is there.
pub(crate) fn determined(value: Value) -> Result<Value, Act>
    ensures { value_in result ≡ if_there (value_of value) there }
{
    match value {
        Value::Indeterminate => Err(Act::Indeterminate),
        Value::Number(_) => Ok(value),
        Value::Null => Ok(value),
        Value::Pointer { home: _, leaf: _ } => Ok(value),
        Value::Past {
            home: _,
            leaf: _,
            until: _,
        } => Ok(value),
    }
}

/// The act where a value is used at no place.
pub(crate) fn access_after(value: Value) -> Act
    ensures { result ≡ access_after (value_of value) }
{
    match value {
        Value::Indeterminate => Act::Indeterminate,
        Value::Number(_) => Act::Access,
        Value::Null => Act::Access,
        Value::Pointer { home: _, leaf: _ } => Act::Access,
        Value::Past {
            home: _,
            leaf: _,
            until: _,
        } => Act::Access,
    }
}
