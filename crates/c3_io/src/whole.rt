ghost use Rattle.std.specs.Prelude.{◌≡◌, ◌+◌, ◌<◌, ◌≤◌, ℕ, length, take, IfOk, OnOk, IfErr, IsErrOf};
ghost use Rattle.std.specs.Io.KnownBytes.{Appends};
ghost use Rattle.c3_io.specs.declared.whole.ReadAllFault.TheVariants.{NoMemory};
ghost use Rattle.c3_io.specs.Faults.{Rose, HasCause};
ghost use Rattle.c3_io.specs.Streams.{AreAll, HasMoreThan, Took};

use crate::{Failed, Sink, Source};
use std::alloc::{AllocError, Global};

/// Why a source was not read whole.
#[derive(Clone, Copy, Debug, PartialEq, Eq)]
pub enum ReadAllFault {
    TooLong,
    ReadFault,
    NoMemory,
}

impl From<AllocError> for ReadAllFault {
    ghost from_gives = { λ _ e. e ≡ NoMemory };

    fn from(_: AllocError) -> Self {
        ReadAllFault::NoMemory
    }
}

const CHUNK: usize = 4096;

/// All bytes of the source, of which there are at most `limit`.
pub fn read_all<S: Source>(
    alloc: Global,
    source: &mut S,
    limit: usize,
) -> Result<Vec<u8>, ReadAllFault>
    ensures all { IfOk result (λ bytes. AreAll (S.left source.old) bytes.items) }
    ensures fits { IfOk result (λ bytes. length bytes.items ≤ limit) }
    ensures too_long { IsErrOf result ReadAllFault.TooLong → HasMoreThan limit (S.left source.old) }
    ensures read_fault { IsErrOf result ReadAllFault.ReadFault → Rose (S.faults source.old) (S.faults source.new) }
    // No fault is passed over, and the count never falls.
    ensures no_fault { OnOk result (S.faults source.new ≡ S.faults source.old) }
    ensures no_fault_too_long { IsErrOf result ReadAllFault.TooLong → S.faults source.new ≡ S.faults source.old }
    ensures later { S.faults source.old ≤ S.faults source.new }
    // What was taken is a front of what was left, also after a fault.
    ensures took { (n : ℕ) × (n ≤ limit + 1) × Took (S.left source.old) (S.left source.new) n }
    ensures took_all { IfOk result (λ bytes. Took (S.left source.old) (S.left source.new) (length bytes.items)) }
    ensures took_too_long { IsErrOf result ReadAllFault.TooLong → Took (S.left source.old) (S.left source.new) (limit + 1) }
{
    let mut bytes = Vec::new(alloc);
    let mut chunk = [0u8; CHUNK];
    while bytes.len() <= limit {
        let room = (limit - bytes.len()).saturating_add(1).min(CHUNK);
        match source.take(&mut chunk[..room]) {
            Ok(0) => return Ok(bytes),
            Ok(count) => bytes.extend_from_slice(&chunk[..count])?,
            Err(Failed) => return Err(ReadAllFault::ReadFault),
        }
    }
    Err(ReadAllFault::TooLong)
}

/// A write that failed after `out` bytes had gone out.
#[derive(Clone, Copy, Debug, PartialEq, Eq)]
pub struct WriteFault {
    pub out: u64,
}

/// Sends all the bytes.
pub fn write_all_to<K: Sink>(sink: &mut K, bytes: &[u8]) -> Result<(), WriteFault>
    ensures all { OnOk result (Appends (K.out sink.old) (K.out sink.new) bytes.now) }
    ensures prefix { IfErr result (λ fault. Appends (K.out sink.old) (K.out sink.new) (take fault.out bytes.now)) }
    ensures short { IfErr result (λ fault. fault.out < length bytes.now) }
    ensures cause { HasCause (K.faults sink.old) (K.faults sink.new) result }
{
    let mut out = 0;
    while out < bytes.len() {
        match sink.put(&bytes[out..]) {
            Ok(count) => out += count,
            Err(Failed) => return Err(WriteFault { out: out as u64 }),
        }
    }
    Ok(())
}
