//! What one scope declares.

use crate::bindings::Binding;
use crate::completes::Completes;
use crate::meaning::{Meaning, Tag};

/// A scope: what it declares, in the order of the text, and the tags of structs that it completes.
#[derive(Drop)]
pub struct Scope<'t> {
    pub(crate) names: Vec<Binding<'t, Meaning>>,
    pub(crate) tags: Vec<Binding<'t, Tag>>,
    pub(crate) completes: Completes<'t>,
}
