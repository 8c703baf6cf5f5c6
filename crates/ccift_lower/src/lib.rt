//! Lowering: from a typed program to flat code.
#![tactic(auto)]

mod emit;
mod function;
mod instr;
pub mod law;
mod size;

pub use function::lower;
