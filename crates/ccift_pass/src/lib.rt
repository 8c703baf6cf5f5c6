//! The pass: sites, descriptors and jumps, so that code can save and restore where it stands.
#![tactic(auto)]

mod function;
mod instr;
pub mod law;
mod sites;
mod targets;

pub use function::pass;
