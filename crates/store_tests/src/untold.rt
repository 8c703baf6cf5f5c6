//! Disks whose calls ask for no proof.

ghost use Rattle.std.specs.Prelude.{◌^◌};
ghost use Rattle.disk_model.specs.Disk.{untold};

use c3_io::Failed;
use disk_model::{Disk, MemDisk};

/// A disk in memory that tells nothing of what its files hold. A write and a cut ask for the length first, which is a call too.
#[derive(Drop)]
pub struct Untold {
    pub disk: MemDisk,
}

impl Disk for Untold {
    ghost told = { ⊥ };

    ghost files = { 2 ^ 32 };

    ghost view = { λ d. untold };

    ghost faults = { λ d. d.disk.faults };

    ghost lawful = { λ d told. absurd told };

    fn length(&mut self, file: u32) -> Result<u64, Failed> {
        self.disk.length(file)
    }

    fn read(&mut self, file: u32, at: u64, into: &mut [u8]) -> Result<usize, Failed> {
        self.disk.read(file, at, into)
    }

    fn write(&mut self, file: u32, at: u64, bytes: &[u8]) -> Result<(), Failed> {
        let length = self.disk.length(file)?;
        self.disk.write(file, at.min(length), bytes)
    }

    fn cut(&mut self, file: u32, size: u64) -> Result<(), Failed> {
        let length = self.disk.length(file)?;
        self.disk.cut(file, size.min(length))
    }

    fn sync(&mut self, file: u32) -> Result<(), Failed> {
        self.disk.sync(file)
    }
}
