//! Flat code: functions as lists of instructions with jumps.
#![tactic(auto)]

mod code;
mod copy;
mod sum;
mod text;

pub use code::{Code, FlatFunction, Instr, Site};
pub use sum::more;
pub use text::print_c;
