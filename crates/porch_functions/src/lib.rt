//! The typing rules round the body of a function, and those at the end of a text: which functions have one,
//! the scope of the parameters, `main`, and the sum over the globals. Each call is its definition in
//! porch_check. Stands on porch_declarators. `heads.rt` has what stands in front of a body, `ends.rt` what
//! follows it, `program.rt` what is asked of the whole text.
#![tactic(auto)]

mod ends;
mod heads;
mod program;

pub use ends::end_body;
pub use heads::{ParameterList, begin_body, have_names, into_list, refusal_of_other, result_of};
pub use program::{find_main, first_too_many};
