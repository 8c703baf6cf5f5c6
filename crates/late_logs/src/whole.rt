//! Files of logs.

ghost use Rattle.std.specs.Prelude.{◌≡◌, IsTrue, IfOk};
ghost use Rattle.late_logs.specs.Answers.{IsRead, IsOnly};
ghost use Rattle.late_logs.specs.Texts.{log_form};

use crate::log::Log;
use c3_base::NoMemory;
use file_fields::{Field, ReadFault, Reading};
use std::alloc::Global;

/// Why bytes are not read as a log.
#[derive(Clone, Copy, Debug, PartialEq, Eq)]
pub enum NotLog {
    /// They are no log's text. The place is that of the first field that isn't right or isn't whole, or of what follows the last.
    Wrong { at: usize },
    NoMemory,
}

/// The text of a log.
pub fn write_log(alloc: Global, log: &Log) -> Result<Vec<u8>, NoMemory>
    requires { IsTrue (log_form.fits log.now) }
    ensures { IfOk result (λ text. text.items ≡ log_form.text log.now) }
{
    let mut text = Vec::new(alloc);
    log.write(&mut text)?;
    Ok(text)
}

/// The log with this text.
pub fn read_log(alloc: Global, bytes: &[u8]) -> Result<Log, NotLog>
    ensures read { IsRead log_form bytes.now result }
    ensures only { IsOnly log_form bytes.now result }
{
    read_whole(alloc, bytes)
}

fn read_whole(alloc: Global, bytes: &[u8]) -> Result<Log, NotLog>
    ensures { IsRead log_form bytes.now result }
{
    let mut text = Reading::new(bytes);
    match Log::read(alloc, &mut text) {
        Ok(log) if text.len() == 0 => Ok(log),
        Err(ReadFault::NoMemory) => Err(NotLog::NoMemory),
        _ => Err(NotLog::Wrong {
            at: bytes.len().saturating_sub(text.len()),
        }),
    }
}
