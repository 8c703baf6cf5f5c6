//! Tests of the protocol's core, whose ranks make lists of operations.
#![tactic(auto)]

#[cfg(test)]
mod job;
#[cfg(test)]
mod rows;
mod script;
#[cfg(test)]
mod waves;
