//! Tests of a job's files: what a stop at each device call leaves, and files that are damaged.
#![tactic(auto)]

#[cfg(test)]
mod damage;
#[cfg(test)]
mod slow;
#[cfg(test)]
mod stops;
#[cfg(test)]
mod untold;
