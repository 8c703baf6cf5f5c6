//! What a program means: the steps of a run.
#![tactic(auto)]

mod act;
mod back;
mod call;
mod choice;
mod exchange;
mod frame;
mod level;
mod levels;
mod rank;
mod running;
mod statement;
mod step;
mod turn;

pub use rank::Rank;
pub use running::Step;
