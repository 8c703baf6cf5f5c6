//! The values of expressions, and what is printed of them.
#![tactic(auto)]

pub mod number;
mod pointer;
pub mod print;
pub mod value;
