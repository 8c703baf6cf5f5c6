//! Logs of checkpoints: what a rank met between its checkpoint and its stop.
#![tactic(auto)]

mod entry;
mod fields;
mod log;
mod whole;

pub use entry::Entry;
pub use log::Log;
pub use whole::{NotLog, read_log, write_log};
