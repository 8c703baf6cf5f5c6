//! Tests of restart mode and of images of ranks: machines come back to the marks of their runs, and broken states are refused.
#![tactic(auto)]

#[cfg(test)]
mod broken;
#[cfg(test)]
mod comebacks;
#[cfg(test)]
mod course;
#[cfg(test)]
mod recursion;
#[cfg(test)]
mod states;
#[cfg(test)]
mod written;
