//! A job under the checkpoint protocol: a rank of it, and what lies between its ranks.
#![tactic(auto)]

mod handling;
mod member;
mod network;
mod process;
mod queues;

pub use handling::Handled;
pub use member::{Did, Member};
pub use network::{Arrived, Network};
pub use process::Process;
pub use queues::{Pairs, Queue, Row};
