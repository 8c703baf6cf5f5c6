//! Sends that are left out after a restart: the receiver's checkpoint has their messages already.
#![tactic(auto)]

ghost use Rattle.std.specs.Prelude.{◌≡◌, ◌<◌, length, pred, nat_lt, slice_index};
ghost use Rattle.std.specs.List.{slice_set};

use std::marker::Model;

/// How many sends to each rank are left out yet. Contracts see the counts.
#[derive(Drop)]
pub struct Skips {
    counts: Vec<u32>,
}

impl Model for Skips {
    ghost use Rattle.std.specs.Prelude.{List, ℕ};

    ghost Value = { List ℕ };

    ghost view = { λ s. s.counts.items };
}

impl Skips {
    /// A count for each rank.
    pub fn new(counts: Vec<u32>) -> Skips
        ensures { result ≡ counts.items }
    {
        Skips { counts }
    }

    /// Whether the next send to a rank is left out.
    pub fn take(&mut self, to: u16) -> bool
        requires { to < length self.old }
        ensures taken { result ≡ nat_lt 0 (slice_index self.old to) }
        ensures left { self.new ≡ slice_set self.old to (pred (slice_index self.old to)) }
    {
        let count = &mut self.counts[usize::from(to)];
        if *count == 0 {
            return false;
        }
        *count -= 1;
        true
    }
}
