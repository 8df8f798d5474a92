//! The two places of a copy.
ghost use Rattle.std.specs.Prelude.{◌≡◌};
ghost use Rattle.porch_live.specs.Views.{value_of};
ghost use Rattle.porch_live.specs.inside.Places.{both, places, places_in};

use crate::value::{Home, Value, determined};
use porch_values::Act;

/// The leaf that is written, and the leaf that is read.
#[derive(Clone, Copy)]
pub(crate) struct Places {
    pub(crate) home: Home,
    pub(crate) leaf: u64,
    pub(crate) other: Home,
    pub(crate) first: u64,
}

/// The places that two pointers as they are seen name.
pub(crate) fn find_places(to: Value, from: Value) -> Result<Places, Act>
    ensures { places_in result ≡ places (value_of to) (value_of from) }
{
    match determined(to) {
        Ok(to) => match determined(from) {
            Ok(from) => both(to, from),
            Err(act) => Err(act),
        },
        Err(act) => Err(act),
    }
}

fn both(to: Value, from: Value) -> Result<Places, Act>
    ensures { places_in result ≡ both (value_of to) (value_of from) }
{
    match to {
        Value::Pointer { home, leaf } => match from {
            Value::Pointer {
                home: other,
                leaf: first,
            } => Ok(Places {
                home,
                leaf,
                other,
                first,
            }),
            Value::Number(_) => Err(Act::Access),
            Value::Null => Err(Act::Access),
            Value::Past {
                home: _,
                leaf: _,
                until: _,
            } => Err(Act::Access),
            Value::Indeterminate => Err(Act::Access),
        },
        Value::Number(_) => Err(Act::Access),
        Value::Null => Err(Act::Access),
        Value::Past {
            home: _,
            leaf: _,
            until: _,
        } => Err(Act::Access),
        Value::Indeterminate => Err(Act::Access),
    }
}
