//! Laws of the turns of machines.
#![tactic(auto)]

pub mod law;
