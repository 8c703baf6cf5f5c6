//! The tokens and the syntax tree of a program text, and what a text is refused for.
#![tactic(auto)]

mod kind;
pub mod law;
mod token;
pub mod tree;

pub use kind::Kind;
pub use token::{Call, Class, Datatype, Header, Operator, Reduction, Token, Value};
