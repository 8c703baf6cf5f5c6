//! The grammar of the language, and what a parser by descent with one token of memory makes of it.
#![tactic(auto)]

pub mod ahead;
mod fault;
pub mod law;
pub mod reading;
mod values;

pub use fault::{ReadError, Unread};
pub use values::{Integer, Literal, MemberName};
