//! What an event writes.

use image_text::Image;
use late_logs::Log;
use mpi_words::List;

/// What goes to the disk, in order.
#[derive(Drop)]
pub enum Effect {
    /// Bytes of a rank's output, one at least.
    Output { rank: u16, bytes: List<u8> },
    /// A rank's checkpoint.
    Save { rank: u16, image: Image },
    /// A rank's log, where it stopped.
    WriteLog { rank: u16, log: Log },
    Commit { line: u16 },
}
