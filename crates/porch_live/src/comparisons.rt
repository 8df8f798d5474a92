//! Which pointers are equal.
ghost use Rattle.std.specs.Prelude.{◌≡◌, ◌==◌, ◌&&◌, ◌+◌, ℕ, List, Option};
ghost use Rattle.porch_types.specs.declared.shapes.Ty.{Ty};
ghost use Rattle.porch_types.specs.Leaves.{leaves_of};
ghost use Rattle.porch_objects.specs.Pointers.{equal, equals_end, same_home};
ghost use Rattle.porch_objects.specs.Store.{null, pointer, past};
ghost use Rattle.porch_live.specs.Views.{home_of, value_of};

use crate::roots::leaves_of;
use crate::value::{Home, Value};
use porch_types::Types;
use porch_values::Act;

/// Whether two values that are there are equal pointers.
pub(crate) fn equal(types: &Types, pointee: u32, p: Value, q: Value) -> Result<bool, Act>
    ensures { result ≡ equal types.now pointee (value_of p) (value_of q) }
{
    match p {
        Value::Null => Ok(is_null(q)),
        Value::Pointer { home, leaf } => equals_pointer(types, pointee, home, leaf, q),
        Value::Past {
            home,
            leaf,
            until: _,
        } => equals_past(types, pointee, home, leaf, q),
        Value::Number(_) => Ok(false),
        Value::Indeterminate => Ok(false),
    }
}

fn is_null(q: Value) -> bool
    ensures { (types : List Ty) (pointee : ℕ) → Ok result ≡ equal types pointee null (value_of q) }
{
    match q {
        Value::Null => true,
        Value::Number(_) => false,
        Value::Pointer { home: _, leaf: _ } => false,
        Value::Past {
            home: _,
            leaf: _,
            until: _,
        } => false,
        Value::Indeterminate => false,
    }
}

fn equals_pointer(types: &Types, pointee: u32, home: Home, leaf: u64, q: Value) -> Result<bool, Act>
    ensures { result ≡ equal types.now pointee (pointer (home_of home) leaf) (value_of q) }
{
    match q {
        Value::Pointer {
            home: other,
            leaf: there,
        } => Ok(same_place(home, leaf, other, there)),
        Value::Past {
            home: other,
            leaf: end,
            until: _,
        } => equals_end(types, pointee, home, leaf, other, end),
        Value::Null => Ok(false),
        Value::Number(_) => Ok(false),
        Value::Indeterminate => Ok(false),
    }
}

fn equals_past(types: &Types, pointee: u32, home: Home, end: u64, q: Value) -> Result<bool, Act>
    ensures { (until : Option ℕ) → result
        ≡ equal types.now pointee (past (home_of home) end until) (value_of q) }
{
    match q {
        Value::Past {
            home: other,
            leaf: there,
            until: _,
        } => Ok(same_place(home, end, other, there)),
        Value::Pointer { home: other, leaf } => {
            equals_end(types, pointee, other, leaf, home, end)
        }
        Value::Null => Ok(false),
        Value::Number(_) => Ok(false),
        Value::Indeterminate => Ok(false),
    }
}

/// An end, and the element at the next leaf.
fn equals_end(
    types: &Types,
    pointee: u32,
    home: Home,
    leaf: u64,
    other: Home,
    end: u64,
) -> Result<bool, Act>
    ensures { result ≡ equals_end types.now pointee (home_of home) leaf (home_of other) end }
{
    if is_next(types, pointee, home, leaf, other, end) {
        Err(Act::Compare)
    } else {
        Ok(false)
    }
}

/// Whether the leaf stands where the element at the other one ends.
fn is_next(types: &Types, pointee: u32, home: Home, leaf: u64, other: Home, end: u64) -> bool
    ensures { result ≡ (same_home types.now pointee (home_of home) (home_of other)
        && leaf == end + leaves_of types.now pointee) }
{
    same_home(home, other) && is_sum(leaf, end, leaves_of(types, pointee))
}

/// Whether two names are of one object, and two leaves the same.
pub(crate) fn same_place(home: Home, leaf: u64, other: Home, there: u64) -> bool
    ensures { (types : List Ty) (pointee : ℕ) → result
        ≡ (same_home types pointee (home_of home) (home_of other) && leaf == there) }
{
    same_home(home, other) && leaf == there
}

fn is_sum(whole: u64, a: u64, b: u64) -> bool
    ensures { result ≡ (whole == a + b) }
{
    match a.checked_add(b) {
        Some(sum) => whole == sum,
        None => false,
    }
}

/// Whether two names are of one object.
fn same_home(a: Home, b: Home) -> bool
    ensures { (types : List Ty) (pointee : ℕ) → result
        ≡ same_home types pointee (home_of a) (home_of b) }
{
    match a {
        Home::Global(a) => match b {
            Home::Global(b) => a == b,
            Home::Call {
                call: _,
                variable: _,
            } => false,
            Home::Block(_) => false,
        },
        Home::Call { call, variable } => match b {
            Home::Call {
                call: other,
                variable: there,
            } => call == other && variable == there,
            Home::Global(_) => false,
            Home::Block(_) => false,
        },
        Home::Block(a) => match b {
            Home::Block(b) => a == b,
            Home::Global(_) => false,
            Home::Call {
                call: _,
                variable: _,
            } => false,
        },
    }
}
