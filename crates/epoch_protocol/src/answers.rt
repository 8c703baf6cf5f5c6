//! What a layer answers.

use mpi_words::Label;

/// How a send goes on.
#[derive(Clone, Copy, PartialEq, Eq, Debug)]
pub enum SendAs {
    /// The message goes out with this label.
    Out(Label),
    /// The message stays here: its receiver has it from before the restart.
    Suppressed,
}

/// An arrival's class, by its sender's epoch against the receiver's.
#[derive(Clone, Copy, PartialEq, Eq, Debug)]
pub enum Class {
    /// Of an older epoch.
    Late,
    Intra,
    /// Of a newer epoch.
    Early,
    /// Intra, and its sender has stopped: a receiver that logs stops before it counts the arrival.
    IntraAndStopped,
}

/// What is to be done after a control message.
#[derive(Clone, Copy, PartialEq, Eq, Debug)]
pub enum Told {
    Nothing,
    /// Rank 0 is to be told that the rank is ready.
    SendReady,
    /// The rank is to stop.
    StopNow,
}
