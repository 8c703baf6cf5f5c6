//! What ranks do that others see: messages and what takes them, operations with their replies, and ends.
#![tactic(auto)]

mod control;
mod label;
mod list;
mod message;
mod operation;
mod pattern;

pub use control::Control;
pub use label::Label;
pub use list::List;
pub use message::{Datatype, Message};
pub use operation::{End, Op, Reply, Want};
pub use pattern::{Pattern, Patterns, matches};
