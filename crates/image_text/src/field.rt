//! What a broken image is named by.

/// A row of an image's file that may break a rule.
#[derive(Clone, Copy, Debug, PartialEq, Eq)]
pub enum Field {
    Ranks,
    Rank,
    Line,
    Output,
    Sites,
    Variables,
    Objects,
    Mailbox,
}
