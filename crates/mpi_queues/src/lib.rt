//! Messages on their way: a list for each ordered pair of ranks, and the mailbox of a rank.
#![tactic(auto)]

mod channels;
pub mod law;
mod mailbox;
mod queue;

pub use channels::Channels;
pub use mailbox::Mailbox;
