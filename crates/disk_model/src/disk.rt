ghost use Rattle.std.specs.Prelude.{◌≡◌, ℕ, ◌≤◌, ◌<◌, length, take, drop, IfOk, OnOk};
ghost use Rattle.c3_io.specs.Faults.{HasCause};
ghost use Rattle.disk_model.specs.Disk.{View, IsView, IsStable, Steps, Torn, Cut, Same, Holds};

use c3_io::Failed;

/// Numbered files. One that was never written has length 0.
pub trait Disk {
    /// Whether it tells what its files hold.
    ghost told: { Type 0 };

    /// How many files there are.
    ghost files: { ℕ };

    ghost view: { Self → View };

    /// How often it has failed. At the type's end the count stands still.
    ghost faults: { Self → ℕ };

    fn length(&mut self, file: u32) -> Result<u64, Failed>
        requires { file < files }
        ensures length { told → IfOk result (λ count. count ≡ length ((view self.old).seen file)) }
        ensures steps { told → Steps file Same (view self.old) (view self.new) }
        ensures cause { HasCause (faults self.old) (faults self.new) result };

    /// Gives fewer bytes than were asked only at the file's end.
    fn read(&mut self, file: u32, at: u64, into: &mut [u8]) -> Result<usize, Failed>
        requires { file < files }
        ensures bound { IfOk result (λ count. count ≤ length into.new) }
        ensures bytes { told → IfOk result (λ count. take count into.new ≡ take (length into.new) (drop at ((view self.old).seen file))) }
        ensures steps { told → Steps file Same (view self.old) (view self.new) }
        ensures cause { HasCause (faults self.old) (faults self.new) result };

    /// Writes over what is there, and past the end. Until a sync, a stop may leave any bytes in the range.
    fn write(&mut self, file: u32, at: u64, bytes: &[u8]) -> Result<(), Failed>
        requires file { file < files }
        requires place { told → at ≤ length ((view self.old).seen file) }
        ensures written { told → OnOk result (Holds ((view self.old).seen file) at bytes.now ((view self.new).seen file)) }
        ensures steps { told → Steps file (Torn at (length bytes.now)) (view self.old) (view self.new) }
        ensures cause { HasCause (faults self.old) (faults self.new) result };

    fn cut(&mut self, file: u32, size: u64) -> Result<(), Failed>
        requires file { file < files }
        requires size { told → size ≤ length ((view self.old).seen file) }
        ensures cut { told → OnOk result ((view self.new).seen file ≡ take size ((view self.old).seen file)) }
        ensures steps { told → Steps file (Cut size) (view self.old) (view self.new) }
        ensures cause { HasCause (faults self.old) (faults self.new) result };

    /// After it, a stop leaves what a read gives.
    fn sync(&mut self, file: u32) -> Result<(), Failed>
        requires { file < files }
        ensures durable { told → OnOk result (IsStable (view self.new) file) }
        ensures steps { told → Steps file Same (view self.old) (view self.new) }
        ensures cause { HasCause (faults self.old) (faults self.new) result };

    ghost lawful: { (d : Self) → told → IsView files (view d) };
}
