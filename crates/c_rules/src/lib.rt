//! The rules at each node of a program's tree, and what the node is found to be.
#![tactic(auto)]

pub mod breach;
pub mod format;
pub mod found;
pub mod rules;
pub mod scope;
pub mod signature;
pub mod types;
