//! The machine that runs flat code.
#![tactic(auto)]

mod act;
mod blocks;
mod control;
mod describe;
mod finish;
mod frame;
mod machine;
mod memory;
mod operate;
mod parts;
mod reenter;
mod returning;
mod running;
mod save;
mod store;
mod turn;

pub use machine::Machine;
pub use reenter::place_named;
