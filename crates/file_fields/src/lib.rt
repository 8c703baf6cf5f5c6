//! The fields of files: numbers, lists and messages, as they are written and read.
#![tactic(auto)]

mod cell;
mod field;
mod list;
mod message;
mod reading;

pub use field::Field;
pub use list::{read_list, write_list};
pub use reading::{ReadFault, Reading};
