//! The memory of a program: objects of cells, found by their serials.
#![tactic(auto)]

mod cell;
mod memory;
mod object;
mod objects;
mod spot;

pub use cell::{NULL, number};
pub use memory::{Memory, cells_asked};
pub use objects::Objects;
pub use spot::{Spot, moved};
