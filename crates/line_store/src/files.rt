//! Runs of calls on one file.

ghost use Rattle.std.specs.Prelude.{◌≡◌, ◌≤◌, ◌<◌, ◌++◌, length, take, get_or, IfOk, OnOk};
ghost use Rattle.c3_io.specs.Faults.{HasCause};
ghost use Rattle.disk_model.specs.Disk.{IsStable, Steps, Same};
ghost use Rattle.disk_model.specs.Runs.{Touches};
ghost use Rattle.line_store.specs.Store.{Anyhow, IsEmpty, StaysTo};

use c3_io::Failed;
use disk_model::Disk;

/// The byte at a place, or 0 past the end.
pub fn byte_at<D: Disk>(disk: &mut D, file: u32, at: u64) -> Result<u8, Failed>
    requires { file < D.files }
    ensures byte { D.told → IfOk result (λ byte. byte ≡ get_or ((D.view disk.old).seen file) at 0) }
    ensures steps { D.told → Steps file Same (D.view disk.old) (D.view disk.new) }
    ensures cause { HasCause (D.faults disk.old) (D.faults disk.new) result }
{
    let mut byte = [0u8; 1];
    let count = disk.read(file, at, &mut byte)?;
    Ok(first_of(&byte, count))
}

// The first byte, or 0 where there is none.
fn first_of(bytes: &[u8], count: usize) -> u8
    requires { count ≤ length bytes.now }
    ensures { result ≡ get_or (take count bytes.now) 0 0 }
{
    if count == 0 {
        return 0;
    }
    bytes[0]
}

/// Puts these bytes in the place of a file's, and syncs it.
pub fn replace<D: Disk>(disk: &mut D, file: u32, bytes: &[u8]) -> Result<(), Failed>
    requires { file < D.files }
    ensures touches { D.told → Touches file Anyhow (D.view disk.old) (D.view disk.new) }
    ensures written { D.told → OnOk result ((D.view disk.new).seen file ≡ bytes.now) }
    ensures durable { D.told → OnOk result (IsStable (D.view disk.new) file) }
    ensures cause { HasCause (D.faults disk.old) (D.faults disk.new) result }
{
    disk.cut(file, 0)?;
    disk.write(file, 0, bytes)?;
    disk.sync(file)?;
    Ok(())
}

/// Cuts a file to nothing and syncs it.
pub fn empty<D: Disk>(disk: &mut D, file: u32) -> Result<(), Failed>
    requires { file < D.files }
    ensures touches { D.told → Touches file Anyhow (D.view disk.old) (D.view disk.new) }
    ensures empty { D.told → OnOk result (IsEmpty (D.view disk.new) file) }
    ensures cause { HasCause (D.faults disk.old) (D.faults disk.new) result }
{
    disk.cut(file, 0)?;
    disk.sync(file)?;
    Ok(())
}

/// Puts these bytes behind a file's.
pub fn extend<D: Disk>(disk: &mut D, file: u32, bytes: &[u8]) -> Result<(), Failed>
    requires { file < D.files }
    ensures touches { D.told → Touches file (StaysTo (length ((D.view disk.old).seen file))) (D.view disk.old) (D.view disk.new) }
    ensures written { D.told → OnOk result ((D.view disk.new).seen file ≡ (D.view disk.old).seen file ++ bytes.now) }
    ensures cause { HasCause (D.faults disk.old) (D.faults disk.new) result }
{
    let end = disk.length(file)?;
    disk.write(file, end, bytes)?;
    Ok(())
}

/// Cuts a file to its first bytes and syncs it.
pub fn shorten<D: Disk>(disk: &mut D, file: u32, size: u64) -> Result<(), Failed>
    requires file { file < D.files }
    requires size { D.told → size ≤ length ((D.view disk.old).seen file) }
    ensures touches { D.told → Touches file (StaysTo size) (D.view disk.old) (D.view disk.new) }
    ensures cut { D.told → OnOk result ((D.view disk.new).seen file ≡ take size ((D.view disk.old).seen file)) }
    ensures durable { D.told → OnOk result (IsStable (D.view disk.new) file) }
    ensures cause { HasCause (D.faults disk.old) (D.faults disk.new) result }
{
    disk.cut(file, size)?;
    disk.sync(file)?;
    Ok(())
}
