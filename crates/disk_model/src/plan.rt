//! Which calls are to fail.

ghost use Rattle.std.specs.Prelude.{◌≡◌, ◌⊎◌, ◌↔◌, ◌+◌, ◌-◌, ◌^◌, ◌≤◌, min, Contains, IsTrue};
ghost use Rattle.disk_model.specs.Memory.{IsBlown};

/// How many calls were made, the numbers of those that fail, and that from which on all fail.
#[derive(Drop)]
pub struct Plan {
    pub fail: Vec<u64>,
    pub fuse: Option<u64>,
    pub made: u64,
}

impl Plan {
    /// Counts a call, and tells whether it is to fail.
    pub fn next_fails(&mut self) -> bool
        ensures fails { IsTrue result ↔ (Contains self.old.fail.items self.old.made ⊎ IsBlown self.old.fuse self.old.made) }
        ensures fail { self.new.fail.items ≡ self.old.fail.items }
        ensures fuse { self.new.fuse ≡ self.old.fuse }
        ensures made { self.new.made ≡ min (self.old.made + 1) (2 ^ 64 - 1) }
    {
        let number = self.made;
        self.made = number.saturating_add(1);
        is_blown(self.fuse, number) || self.fail.contains(&number)
    }
}

// Whether the fuse is blown at a call.
fn is_blown(fuse: Option<u64>, number: u64) -> bool
    ensures { IsTrue result ↔ IsBlown fuse number }
{
    match fuse {
        None => false,
        Some(from) => from <= number,
    }
}
