//! The position stack of a machine: the sites of its calls and of its mark, which restart mode walks from the bottom.
#![tactic(auto)]

ghost use Rattle.std.specs.Prelude.{◌≡◌, ◌+◌, [], ◌∷◌, ◌++◌, IfSome, IfNone, OnErr, OnOk, slice_get};

use c3_base::NoMemory;
use std::alloc::Global;
use std::marker::Model;

/// Sites, the bottom first, and how many of them a replay has given.
#[derive(Drop)]
pub struct PositionStack {
    sites: Vec<u32>,
    replayed: usize,
}

impl Model for PositionStack {
    ghost use Rattle.position_stack.specs.Positions.{Positions};

    ghost Value = { Positions };

    ghost view = { λ p. record { sites = p.sites.items; replayed = p.replayed } };
}

impl PositionStack {
    /// No site.
    pub fn new(alloc: Global) -> PositionStack
        ensures { result ≡ record { sites = []; replayed = 0 } }
    {
        PositionStack {
            sites: Vec::new(alloc),
            replayed: 0,
        }
    }

    /// These sites, to be replayed from the bottom.
    pub fn of(sites: Vec<u32>) -> PositionStack
        ensures { result ≡ record { sites = sites.items; replayed = 0 } }
    {
        PositionStack { sites, replayed: 0 }
    }

    pub fn push(&mut self, site: u32) -> Result<(), NoMemory>
        ensures ok { OnOk result (self.new ≡ record self.old { sites = self.old.sites ++ site ∷ [] }) }
        ensures err { OnErr result (self.new ≡ self.old) }
    {
        self.sites.push(site)?;
        Ok(())
    }

    /// Takes the newest site.
    pub fn pop(&mut self) -> Option<u32>
        ensures some { IfSome result (λ site. self.old ≡ record self.new { sites = self.new.sites ++ site ∷ [] }) }
        ensures none { IfNone result (self.old.sites ≡ []) }
        ensures empty { IfNone result (self.new ≡ self.old) }
    {
        self.sites.pop()
    }

    pub fn list(&self) -> &[u32]
        ensures { result.now ≡ self.now.sites }
    {
        self.sites.as_slice()
    }

    /// The next site of the replay from the bottom, or `None` after the last.
    pub fn replay_next(&mut self) -> Option<u32>
        ensures next { result ≡ slice_get self.old.sites self.old.replayed }
        ensures some { IfSome result (λ site. self.new ≡ record self.old { replayed = self.old.replayed + 1 }) }
        ensures none { IfNone result (self.new ≡ self.old) }
    {
        let site = *self.sites.get(self.replayed)?;
        self.replayed += 1;
        Some(site)
    }
}
