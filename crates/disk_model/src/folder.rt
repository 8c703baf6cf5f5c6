//! A disk in a folder.

ghost use Rattle.std.specs.Prelude.{◌≡◌, ◌≤◌, ◌^◌, length, IfOk, IsErr};
ghost use Rattle.c3_io.specs.Faults.{HasCause};
ghost use Rattle.disk_model.specs.Disk.{untold};

use crate::Disk;
use c3_io::Failed;
use std::fs::{Files, OpenFile, OpenOptions};
use std::io;
use std::io::{Read, Seek, SeekFrom, Write};
use std::marker::Model;

/// The files `c3.0`, `c3.1`, .. of a folder. It tells nothing of what they hold.
#[derive(Drop)]
pub struct FolderDisk<'r, R: Files + AllocGlobal> {
    rt: &'r R,
    folder: String,
    faults: u64,
}

impl<'r, R: Files + AllocGlobal> Model for FolderDisk<'r, R> {
    ghost use Rattle.std.specs.Prelude.{ℕ};

    ghost Value = { ℕ };

    ghost view = { λ d. d.faults };
}

impl<'r, R: Files + AllocGlobal> FolderDisk<'r, R> {
    pub fn new(rt: &'r R, folder: String) -> Self
        ensures { result ≡ 0 }
    {
        FolderDisk {
            rt,
            folder,
            faults: 0,
        }
    }

    fn open(&self, file: u32, options: &OpenOptions) -> io::Result<R::File> {
        let name = format!(in self.rt.alloc(); "{}/c3.{}", self.folder, file)?;
        options.open(self.rt, name.as_str())
    }

    // The file, where it is there.
    fn find(&self, file: u32, options: &OpenOptions) -> io::Result<Option<R::File>> {
        match self.open(file, options) {
            Ok(found) => Ok(Some(found)),
            Err(error) if error.kind() == io::ErrorKind::NotFound => Ok(None),
            Err(error) => Err(error),
        }
    }

    fn try_length(&self, file: u32) -> io::Result<u64> {
        match self.find(file, OpenOptions::new().read(true))? {
            Some(found) => Ok(found.metadata()?.len()),
            None => Ok(0),
        }
    }

    fn try_read(&self, file: u32, at: u64, into: &mut [u8]) -> io::Result<usize>
        ensures { IfOk result (λ count. count ≤ length into.new) }
    {
        match self.find(file, OpenOptions::new().read(true))? {
            Some(mut found) => {
                found.seek(SeekFrom::Start(at))?;
                read_from(&mut found, into)
            }
            None => Ok(0),
        }
    }

    fn try_write(&self, file: u32, at: u64, bytes: &[u8]) -> io::Result<()> {
        let mut found = self.open(file, OpenOptions::new().write(true).create(true))?;
        found.seek(SeekFrom::Start(at))?;
        found.write_all(bytes)
    }

    fn try_cut(&self, file: u32, size: u64) -> io::Result<()> {
        match self.find(file, OpenOptions::new().write(true))? {
            Some(found) => found.set_len(size),
            None => Ok(()),
        }
    }

    // The folder too, in which the file may be new.
    fn try_sync(&self, file: u32) -> io::Result<()> {
        match self.find(file, OpenOptions::new().write(true))? {
            Some(found) => {
                found.sync_all()?;
                let folder = OpenOptions::new()
                    .read(true)
                    .open(self.rt, self.folder.as_str())?;
                folder.sync_all()
            }
            None => Ok(()),
        }
    }

    // Counts a fault.
    fn fail<T>(&mut self) -> Result<T, Failed>
        ensures err { IsErr result }
        ensures cause { HasCause self.old self.new result }
    {
        self.faults = self.faults.saturating_add(1);
        Err(Failed)
    }
}

// Fills the buffer, up to the reader's end.
fn read_from<F: Read>(reader: &mut F, into: &mut [u8]) -> io::Result<usize>
    ensures { IfOk result (λ count. count ≤ length into.new) }
{
    let mut count = 0;
    for _ in 0..u64::MAX {
        match reader.read(&mut into[count..]) {
            Ok(0) => break,
            Ok(more) => count += more,
            Err(error) if error.kind() == io::ErrorKind::Interrupted => {}
            Err(error) => return Err(error),
        }
    }
    Ok(count)
}

impl<'r, R: Files + AllocGlobal> Disk for FolderDisk<'r, R> {
    ghost told = { ⊥ };

    ghost files = { 2 ^ 32 };

    ghost view = { λ d. untold };

    ghost faults = { λ d. d };

    ghost lawful = { λ d told. absurd told };

    fn length(&mut self, file: u32) -> Result<u64, Failed> {
        match self.try_length(file) {
            Ok(count) => Ok(count),
            Err(_) => self.fail(),
        }
    }

    fn read(&mut self, file: u32, at: u64, into: &mut [u8]) -> Result<usize, Failed> {
        match self.try_read(file, at, into) {
            Ok(count) => Ok(count),
            Err(_) => self.fail(),
        }
    }

    fn write(&mut self, file: u32, at: u64, bytes: &[u8]) -> Result<(), Failed> {
        match self.try_write(file, at, bytes) {
            Ok(()) => Ok(()),
            Err(_) => self.fail(),
        }
    }

    fn cut(&mut self, file: u32, size: u64) -> Result<(), Failed> {
        match self.try_cut(file, size) {
            Ok(()) => Ok(()),
            Err(_) => self.fail(),
        }
    }

    fn sync(&mut self, file: u32) -> Result<(), Failed> {
        match self.try_sync(file) {
            Ok(()) => Ok(()),
            Err(_) => self.fail(),
        }
    }
}
