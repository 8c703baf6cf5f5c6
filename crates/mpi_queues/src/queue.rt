//! The messages from one rank to one rank.

ghost use Rattle.std.specs.Prelude.{◌≡◌, [], ◌∷◌, ◌++◌, IfNone, OnErr, OnOk, option_map, position};
ghost use Rattle.mpi_words.specs.Matching.{matches};
ghost use Rattle.mpi_queues.specs.Firsts.{take_first};

use c3_base::NoMemory;
use mpi_words::{Message, Pattern, matches};
use std::alloc::Global;
use std::collections::VecDeque;
use std::marker::Model;

/// The messages sent and not yet taken, in order of sending.
#[derive(Drop)]
pub struct Queue {
    messages: VecDeque<Message>,
}

impl Model for Queue {
    ghost use Rattle.std.specs.Prelude.{List};
    ghost use Rattle.mpi_words.specs.declared.message.Message.{Message};

    ghost Value = { List Message };

    ghost view = { λ q. q.messages.items };
}

impl Queue {
    /// No message.
    pub fn new(alloc: Global) -> Queue
        ensures { result ≡ [] }
    {
        Queue {
            messages: VecDeque::new(alloc),
        }
    }

    /// Adds a message at the end.
    pub fn push(&mut self, m: Message) -> Result<(), NoMemory>
        ensures ok { OnOk result (self.new ≡ self.old ++ m ∷ []) }
        ensures err { OnErr result (self.new ≡ self.old) }
    {
        self.messages.push_back(m)?;
        Ok(())
    }

    /// The place of the first message that a receive takes, where they come from this rank.
    pub fn place(&self, p: &Pattern, source: u16) -> Option<usize>
        ensures { result ≡ position (matches p.now source) self.now }
    {
        self.messages.iter().position(|m| matches(p, source, m))
    }

    /// Takes out the first message that a receive takes, where they come from this rank.
    pub fn take(&mut self, p: &Pattern, source: u16) -> Option<Message>
        ensures taken { option_map (λ m. record { taken = m; others = self.new }) result ≡ take_first (matches p.now source) self.old }
        ensures none { IfNone result (self.new ≡ self.old) }
    {
        let at = self.place(p, source)?;
        self.messages.remove(at)
    }
}
