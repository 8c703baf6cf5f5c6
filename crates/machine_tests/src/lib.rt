//! Tests of programs: the source's meaning runs them, and so do machines on their passed code.
#![tactic(auto)]

#[cfg(test)]
mod calls;
#[cfg(test)]
mod messages;
#[cfg(test)]
mod pointers;
#[cfg(test)]
mod programs;
#[cfg(test)]
mod rows;
#[cfg(test)]
mod team;
