//! Rank 0's part of a checkpoint wave: who is ready, who has stopped, and who restores no more.
#![tactic(auto)]

mod wave;

pub use wave::{Next, NotNow, Started, Wave};
