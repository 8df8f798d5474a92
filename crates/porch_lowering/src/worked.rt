//! Programs that are worked out: each one's flat program keeps every rule, and means what the program means. The functions
//! are laws, and have nothing to run.

pub mod calls;
pub mod places;
pub mod values;
