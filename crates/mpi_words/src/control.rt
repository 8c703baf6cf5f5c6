//! Messages of the checkpoint protocol.

/// What one rank's layer tells another. Numbers are of lines, but for a count's second.
#[derive(Clone, Copy, PartialEq, Eq, Debug)]
pub enum Control {
    /// A checkpoint for a line is asked for.
    Request(u16),
    /// The sender has saved for a line, and had sent so many messages in the epoch before.
    Count(u16, u32),
    /// The sender has all messages of the epoch before its checkpoint.
    Ready(u16),
    /// The logs of a line may end.
    Stop(u16),
    /// The sender's log for a line is written.
    Stopped(u16),
    /// The sender restores no more.
    Restored,
}
