//! Parts of a program, each read by descent with one token of memory.
#![tactic(auto)]

mod ahead;
mod argument;
mod call;
mod collective;
mod declaration;
mod expression;
mod heading;
mod item;
mod message;
mod statement;
mod structs;
mod types;
mod words;

pub use item::program;
