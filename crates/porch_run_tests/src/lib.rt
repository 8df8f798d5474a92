//! The tests of the byte machine: programs of the flat text, run to their ends under several layouts.
#![tactic(auto)]

#[cfg(test)]
mod ends;
#[cfg(test)]
mod kept;
#[cfg(test)]
mod made_one;
#[cfg(test)]
mod made_three;
#[cfg(test)]
mod made_two;
#[cfg(test)]
mod pointers;
#[cfg(test)]
mod small;
#[cfg(test)]
mod stacks;
