//! The tests of the abstract machine: programs of the flat text, run to their ends.
#![tactic(auto)]

#[cfg(test)]
mod ends;
#[cfg(test)]
mod kept;
#[cfg(test)]
mod large;
#[cfg(test)]
mod made_five;
#[cfg(test)]
mod made_four;
#[cfg(test)]
mod made_one;
#[cfg(test)]
mod made_seven;
#[cfg(test)]
mod made_six;
#[cfg(test)]
mod made_three;
#[cfg(test)]
mod made_two;
#[cfg(test)]
mod runs;
#[cfg(test)]
mod small;
