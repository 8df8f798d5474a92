//! What may be done to the leaves of an object.

use crate::value::Value;

/// A change of an object: one leaf becomes a value, leaves from one on become others, where the
/// object has all of them, or all become indeterminate.
#[derive(Drop)]
pub(crate) enum Edit {
    Leaf { leaf: u64, value: Value },
    Part { at: u64, values: Vec<Value> },
    Forget,
}
