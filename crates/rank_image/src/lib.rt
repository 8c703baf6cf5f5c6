//! Images of ranks: which are well formed, and the machine that one gives back.
#![tactic(auto)]

mod back;
mod fault;
mod objects;
mod process;
mod rows;
mod sites;
mod spans;
mod variables;

pub use back::restore;
pub use fault::RestoreFault;
pub use process::RankProcess;
pub use rows::breach;
