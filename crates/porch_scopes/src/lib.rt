//! What the typing rules know of a text while it is read, in code: types by number, names and tags in
//! their scopes, declared functions. Each call is its definition in porch_check. Stands on porch_check
//! and porch_shape. Start at `Scopes`; its tables are `Shapes` and `ScopeStack`, and the rules at one
//! declaration stand in `functions`, `tags`, `structs` and `types`.
#![tactic(auto)]

mod bindings;
mod bodies;
mod completes;
mod declared;
mod functions;
mod library;
mod meaning;
mod members;
mod numbers;
mod row;
mod scope;
mod scopes;
mod shapes;
mod stack;
mod structs;
mod tags;
mod types;

pub use bodies::Bodies;
pub use completes::Completes;
pub use declared::Declared;
pub use functions::declare_function;
pub use meaning::{Library, Meaning, Tag};
pub use members::{Member, Members};
pub use scope::Scope;
pub use scopes::Scopes;
pub use shapes::Shapes;
pub use stack::ScopeStack;
pub use structs::{declare_member, end_struct};
pub use tags::{begin_struct, lone_tag, tagged_type};
pub use types::{array_type, pointer_type};
