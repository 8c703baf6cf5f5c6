//! What the crates above share: want of memory, cells, texts that are written, and numbers in files.
#![tactic(auto)]

mod cell;
mod memory;
mod number;
mod text;

pub use cell::Cell;
pub use memory::NoMemory;
pub use number::{get_u16, get_u32, get_u64, put_u16, put_u32, put_u64};
pub use text::{append, append_number, append_signed};
