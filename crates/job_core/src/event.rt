/// One step of a job. A number that is no rank's has no effect.
#[derive(Clone, Copy, PartialEq, Eq, Debug)]
pub enum Event {
    /// The rank runs up to one operation.
    Turn(u16),
    /// The oldest application message between two ranks arrives.
    Deliver { from: u16, to: u16 },
    /// The oldest control message between two ranks is handled.
    Control { from: u16, to: u16 },
    /// What the channels hold arrives, the control messages first.
    Sweep,
    /// Rank 0 asks all ranks for a checkpoint.
    Wave,
    /// The rank takes no part until the next restart.
    Kill(u16),
    /// All ranks begin again from the committed line.
    Restart,
}
