//! Laws of the machine of a rank.
#![tactic(auto)]

pub mod law;
