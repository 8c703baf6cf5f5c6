//! The committed line.

ghost use Rattle.std.specs.Prelude.{◌≡◌, ◌≢◌, ◌⊎◌, ◌+◌, ◌*◌, ◌≤◌, ◌<◌, OnOk, IfOk, IfErr, None, Some, List, ℕ, length, false};
ghost use Rattle.c3_io.specs.Faults.{HasCause};
ghost use Rattle.disk_model.specs.Disk.{IsStable};
ghost use Rattle.disk_model.specs.Runs.{LeavesOnly, Touches, Keeps};
ghost use Rattle.line_store.specs.declared.fault.StoreFault.TheVariants.{DiskFault};
ghost use Rattle.line_store.specs.Held.{Standing, advanced, IsComplete, reading_of, IsSafe, IsHeld, IsQuiet, Makes, standing_of};
ghost use Rattle.line_store.specs.Reading.{line_of, opens_end, ranks_of, reading_at};
ghost use Rattle.line_store.specs.Store.{IsSettled, HasFiles, IsSaved, ReadsAsLeft, ReadsAsLeftOr, StaysAt};

use crate::fault::StoreFault;
use crate::files::byte_at;
use c3_io::Failed;
use disk_model::Disk;

// The committed line.
fn read_line<D: Disk>(disk: &mut D) -> Result<u16, Failed>
    requires { 5 ≤ D.files }
    ensures line { D.told → IfOk result (λ line. line ≡ line_of ((D.view disk.old).seen 2)) }
    ensures keeps { D.told → Keeps (D.view disk.old) (D.view disk.new) }
    ensures cause { HasCause (D.faults disk.old) (D.faults disk.new) result }
{
    for line in 0..65535u16 {
        if byte_at(disk, 2, u64::from(line))? != 1 {
            return Ok(line);
        }
    }
    Ok(65535)
}

/// The committed line.
pub fn committed<D: Disk>(disk: &mut D) -> Result<u16, StoreFault>
    requires files { 5 ≤ D.files }
    ensures line { D.told → IfOk result (λ line. line ≡ line_of ((D.view disk.old).seen 2)) }
    ensures keeps { D.told → Keeps (D.view disk.old) (D.view disk.new) }
    ensures cause { HasCause (D.faults disk.old) (D.faults disk.new) result }
    ensures kind { IfErr result (λ fault. fault ≡ DiskFault) }
{
    let line = read_line(disk)?;
    Ok(line)
}

// Cuts the line file behind the byte after its line.
fn trim<D: Disk>(disk: &mut D, line: u16) -> Result<(), Failed>
    requires files { 5 ≤ D.files }
    requires stable { D.told → IsStable (D.view disk.old) 2 }
    requires line { D.told → line ≡ line_of ((D.view disk.old).seen 2) }
    ensures touches { D.told → Touches 2 (StaysAt line) (D.view disk.old) (D.view disk.new) }
    ensures durable { D.told → OnOk result (IsStable (D.view disk.new) 2) }
    ensures short { D.told → OnOk result (length ((D.view disk.new).seen 2) ≤ line + 1) }
    ensures cause { HasCause (D.faults disk.old) (D.faults disk.new) result }
{
    let room = u64::from(line) + 1;
    if disk.length(2)? <= room {
        return Ok(());
    }
    disk.cut(2, room)?;
    disk.sync(2)?;
    Ok(())
}

// Makes what a stop may leave settled: no open end, and no line but the one that is read. Gives that line.
fn settle_files<D: Disk>(disk: &mut D) -> Result<u16, StoreFault>
    requires files { 5 ≤ D.files }
    requires unfinished { D.told → opens_end ((D.view disk.old).seen 4) ≡ false }

    // A stop at any moment leaves what it might have left before.
    ensures any_moment { D.told → LeavesOnly (D.view disk.old) (D.view disk.new) (ReadsAsLeft (D.view disk.old)) }

    ensures settled { D.told → OnOk result (IsSettled (D.view disk.new)) }
    ensures line { D.told → IfOk result (λ line. line ≡ line_of ((D.view disk.old).seen 2)) }
    ensures same_line { D.told → OnOk result (line_of ((D.view disk.new).seen 2) ≡ line_of ((D.view disk.old).seen 2)) }
    ensures others { D.told → (file : ℕ) → file ≢ 2 → (D.view disk.new).seen file ≡ (D.view disk.old).seen file }
    ensures others_left { D.told → (file : ℕ) → (bytes : List ℕ) → file ≢ 2 → (D.view disk.new).may_leave file bytes → (D.view disk.old).may_leave file bytes }
    ensures lines { D.told → (b : List ℕ) → (D.view disk.new).may_leave 2 b → (a : List ℕ) × (D.view disk.old).may_leave 2 a × (line_of a ≡ line_of b) }
    ensures cause { HasCause (D.faults disk.old) (D.faults disk.new) result }
    ensures kind { IfErr result (λ fault. fault ≡ DiskFault) }
{
    disk.sync(4)?;
    disk.sync(2)?;
    let line = read_line(disk)?;
    trim(disk, line)?;
    Ok(line)
}

/// Syncs the end and the line's file, which it cuts behind the byte after the line, so that no stop opens either any more. Gives
/// the line.
pub fn settle<D: Disk>(disk: &mut D) -> Result<u16, StoreFault>
    requires files { 5 ≤ D.files }
    requires unfinished { D.told → opens_end ((D.view disk.old).seen 4) ≡ false }
    ensures any_moment { D.told → LeavesOnly (D.view disk.old) (D.view disk.new) (ReadsAsLeft (D.view disk.old)) }
    ensures settled { D.told → OnOk result (IsSettled (D.view disk.new)) }
    ensures same_line { D.told → OnOk result (line_of ((D.view disk.new).seen 2) ≡ line_of ((D.view disk.old).seen 2)) }
    ensures others { D.told → (file : ℕ) → file ≢ 2 → (D.view disk.new).seen file ≡ (D.view disk.old).seen file }
    ensures quiet { D.told → (text : List ℕ) → IsSafe text (D.view disk.old) → IsQuiet text (D.view disk.old) (D.view disk.new) }
    ensures held { D.told → (text : List ℕ) → IsSafe text (D.view disk.old) → 5 * ranks_of text + 5 ≤ D.files → OnOk result (IsHeld text (D.view disk.new) (standing_of (D.view disk.new))) }
    ensures line { D.told → IfOk result (λ line. line ≡ line_of ((D.view disk.new).seen 2)) }
    ensures cause { HasCause (D.faults disk.old) (D.faults disk.new) result }
    ensures kind { IfErr result (λ fault. fault ≡ DiskFault) }
{
    let line = settle_files(disk)?;
    Ok(line)
}

// Opens the next line, all of whose files are synced.
fn open_line<D: Disk>(disk: &mut D, line: u16) -> Result<(), StoreFault>
    requires files { 5 ≤ D.files }
    requires ranks { D.told → HasFiles D.files (ranks_of ((D.view disk.old).seen 0)) }
    requires settled { D.told → IsSettled (D.view disk.old) }
    requires next { D.told → line ≡ line_of ((D.view disk.old).seen 2) + 1 }
    requires above { 0 < line }
    requires saved { D.told → IsSaved (D.view disk.old) line }

    // A stop at any moment leaves what it might have left before, or the next line.
    ensures any_moment { D.told → LeavesOnly (D.view disk.old) (D.view disk.new)
        (ReadsAsLeftOr (D.view disk.old) (Some (reading_at (D.view disk.old).seen line))) }

    ensures settled { D.told → OnOk result (IsSettled (D.view disk.new)) }
    ensures line { D.told → OnOk result (line_of ((D.view disk.new).seen 2) ≡ line) }
    ensures others { D.told → (file : ℕ) → file ≢ 2 → (D.view disk.new).seen file ≡ (D.view disk.old).seen file }
    ensures others_left { D.told → (file : ℕ) → (bytes : List ℕ) → file ≢ 2 → (D.view disk.new).may_leave file bytes → (D.view disk.old).may_leave file bytes }
    ensures lines { D.told → (b : List ℕ) → (D.view disk.new).may_leave 2 b → (line_of b ≡ line_of ((D.view disk.old).seen 2)) ⊎ (line_of b ≡ line) }
    ensures cause { HasCause (D.faults disk.old) (D.faults disk.new) result }
    ensures kind { IfErr result (λ fault. fault ≡ DiskFault) }
{
    disk.write(2, u64::from(line - 1), &[1])?;
    disk.sync(2)?;
    Ok(())
}

/// Opens the next line, all of whose files are saved.
pub fn commit<D: Disk>(disk: &mut D, line: u16) -> Result<(), StoreFault>
    requires files { 5 ≤ D.files }
    requires above { 0 < line }
    requires complete { D.told → (text : List ℕ) × (s : Standing) × IsHeld text (D.view disk.old) s × IsComplete (ranks_of text) s × (line ≡ s.line + 1) }
    ensures makes { D.told → (text : List ℕ) → (s : Standing) → IsHeld text (D.view disk.old) s → IsComplete (ranks_of text) s → line ≡ s.line + 1
        → Makes text (reading_of text (advanced s) None) (D.view disk.old) (D.view disk.new) }
    ensures held { D.told → (text : List ℕ) → (s : Standing) → IsHeld text (D.view disk.old) s → IsComplete (ranks_of text) s → line ≡ s.line + 1
        → OnOk result (IsHeld text (D.view disk.new) (advanced s)) }
    ensures others { D.told → (file : ℕ) → file ≢ 2 → (D.view disk.new).seen file ≡ (D.view disk.old).seen file }
    ensures others_left { D.told → (file : ℕ) → (bytes : List ℕ) → file ≢ 2 → (D.view disk.new).may_leave file bytes → (D.view disk.old).may_leave file bytes }
    ensures cause { HasCause (D.faults disk.old) (D.faults disk.new) result }
    ensures kind { IfErr result (λ fault. fault ≡ DiskFault) }
{
    open_line(disk, line)?;
    Ok(())
}
