//! One arrival, as it is logged.

ghost use Rattle.std.specs.Prelude.{◌≡◌, IfOk};

use c3_base::NoMemory;
use mpi_words::Message;

/// One arrival at a rank that logs, in order of arrival.
#[derive(Debug, Drop)]
pub enum Entry {
    /// Its sender had saved: a replay sends it again.
    Intra { source: u16 },
    /// Its sender hadn't saved yet: nobody sends it again.
    Late { source: u16, message: Message },
}

impl Entry {
    /// An equal entry.
    pub fn copy(&self) -> Result<Entry, NoMemory>
        ensures { IfOk result (λ copy. copy ≡ self.now) }
    {
        match self {
            Entry::Intra { source } => Ok(Entry::Intra { source: *source }),
            Entry::Late { source, message } => Ok(Entry::Late {
                source: *source,
                message: message.copy()?,
            }),
        }
    }
}
