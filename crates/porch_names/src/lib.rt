//! The typing rules at one declaration of a name: typedef names, enumeration constants, objects and
//! parameters. Each call is its definition in porch_check, and answers the first rule that is broken, with
//! its place. Stands on porch_scopes. Start at `Name` and `objects`; what a name may be declared as stands
//! in `typedefs`, `constants`, `objects` and `parameters`, and types that are named or lack a name in
//! `typedefs` and `structs`.
#![tactic(auto)]

mod constants;
mod name;
mod objects;
mod parameters;
mod structs;
mod typedefs;

pub use constants::{begin_enum, declare_constant};
pub use name::{Name, is_hindered, name_in, refusal};
pub use objects::{declare_object, is_object, retype_global, retype_variable};
pub use parameters::{Parameter, declare_parameter, parameter_type, result_type};
pub use structs::begin_any_struct;
pub use typedefs::{declare_typedef, named_type, sized_type, whole_type};
