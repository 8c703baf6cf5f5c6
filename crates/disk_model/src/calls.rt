//! What happens to the files of a disk in memory.

/// What a stop leaves of each file.
#[derive(Clone, Copy, PartialEq, Eq, Debug)]
pub enum Choice {
    /// All that was written.
    Written,
    /// What the last sync left.
    Old,
    /// The greatest length, and this in place of each byte that isn't sure to stay.
    Fill(u8),
    /// The least length.
    Short,
}

/// A call that may have changed a file, or a stop. A call that failed is not done.
#[derive(Drop)]
pub enum Call {
    Write {
        file: u32,
        at: u64,
        bytes: Vec<u8>,
        done: bool,
    },
    Cut {
        file: u32,
        size: u64,
        done: bool,
    },
    Sync {
        file: u32,
    },
    Stop {
        choice: Choice,
    },
}
