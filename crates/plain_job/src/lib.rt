//! The plain job: ranks without checkpoints, and the messages between them.
#![tactic(auto)]

mod job;
mod member;
mod operation;
mod turn;

pub use job::PlainJob;
