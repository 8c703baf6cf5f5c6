//! What a message carries beside itself while checkpoints are taken.

/// The epoch of a message's sender, and whether that logged, both as of the send.
#[derive(Clone, Copy, PartialEq, Eq, Debug)]
pub struct Label {
    /// Counts the sender's checkpoints.
    pub epoch: u16,
    pub logging: bool,
}
