//! Where a rank stands among the ranks, and in its use of MPI.

/// A rank's place in its job.
#[derive(Clone, Copy, PartialEq, Eq)]
pub struct Seat {
    /// From 0 to `ranks - 1`.
    pub rank: u16,
    pub ranks: u16,
    /// Whether a source of -1 is `MPI_ANY_SOURCE`.
    pub any_source: bool,
}

/// How far a rank is in its use of MPI (MPI 3.1 8.7).
#[derive(Clone, Copy, PartialEq, Eq)]
pub enum Phase {
    /// Before `MPI_Init`.
    Before,
    Inside,
    /// After `MPI_Finalize`.
    After,
}
