//! The flat abstract machine in code, for every command of the flat text: a program over objects, without bytes.
//!
//! Start at [`Abstract`] in `machine.rt`. `beginning.rt` makes the labels and the globals of a program, `run.rt` has what
//! is kept of a run and `frame.rt` its frames. `step.rt` takes a step, and `many.rt` many, the quick ones of `porch_quick` among
//! them. `commands.rt` has what a command on variables does: what it leads to is computed before it is done (`effect.rt`, `compute.rt`, `pointers.rt`, then `take.rt`; `numbers.rt` is quicker where all are numbers), and `heap.rt` and `calls.rt` do what
//! changes more. `specs/Held` says what contracts see of the machine.
#![tactic(auto)]

mod beginning;
mod calls;
mod commands;
mod compute;
mod effect;
mod frame;
mod heap;
mod machine;
mod many;
mod numbers;
mod pointers;
mod run;
mod step;
mod take;

pub use machine::Abstract;
