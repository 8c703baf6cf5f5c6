//! What a rank's program acts on: its memory, its output, and MPI, by its calls and the messages that it gets.
#![tactic(auto)]

mod mpi;
mod requests;
mod seat;
mod world;

pub use requests::{Receipt, Request, Requests};
pub use seat::{Phase, Seat};
pub use world::World;
