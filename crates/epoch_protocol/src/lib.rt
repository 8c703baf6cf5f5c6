//! One rank's layer of the checkpoint protocol: its epoch, its counts of messages, and its log.
#![tactic(auto)]

mod answers;
mod layer;

pub use answers::{Class, SendAs, Told};
pub use layer::Layer;
