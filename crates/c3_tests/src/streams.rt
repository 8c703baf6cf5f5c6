//! Sources and sinks that fail, and that move few bytes a call.

ghost use Rattle.std.specs.Prelude.{Some};

use crate::rows::{answered, repeated, words_of};
use c3_io::{Failed, MemSink, MemSource, Sink, Source};
use c3_top::{Status, c3_top};
use std::alloc::Global;
use std::test::Fail;

/// A source that gives at most a thousand bytes a call, or a sink that takes at most three.
#[derive(Drop)]
struct Sips<S> {
    whole: S,
}

impl<S: Source> Source for Sips<S> {
    ghost left = { λ s. S.left s.whole };

    ghost faults = { λ s. S.faults s.whole };

    fn take(&mut self, into: &mut [u8]) -> Result<usize, Failed> {
        let room = into.len().min(1000);
        self.whole.take(&mut into[..room])
    }
}

impl<K: Sink> Sink for Sips<K> {
    ghost out = { λ s. K.out s.whole };

    ghost faults = { λ s. K.faults s.whole };

    fn put(&mut self, piece: &[u8]) -> Result<usize, Failed> {
        let count = piece.len().min(3);
        self.whole.put(&piece[..count])
    }
}

/// A call that is never made.
const NEVER: u64 = u64::MAX;

/// What is answered to the words of a line where this call of the source fails, or that of the sink, with what is written.
fn answered_slowly(
    alloc: Global,
    line: &str,
    input: &str,
    source_call: u64,
    sink_call: u64,
) -> Result<(Status, Vec<u8>), Fail> {
    let words = words_of(alloc, line)?;
    let bytes = Vec::from_slice(alloc, input.as_bytes())?;
    let mut source = Sips {
        whole: MemSource::new(bytes, vec![in alloc; source_call; 1]?),
    };
    let mut sink = Sips {
        whole: MemSink::new(alloc, vec![in alloc; sink_call; 1]?),
    };
    let status = c3_top(alloc, &words, &mut source, &mut sink);
    let written = Vec::from_slice(alloc, sink.whole.bytes())?;
    Ok((status, written))
}

/// A text of 20,050 bytes, which are given in 21 calls. The call after them gives the end.
fn long_text(alloc: Global) -> Result<String, Fail> {
    let program = "int main(void){int x=7;printf(\"%d\\n\",x);return 0;}";
    repeated(alloc, program, " ", 20000, "")
}

#[test]
fn tells_each_fault_of_reading(rt: HostRuntime) -> Result<(), Fail> {
    let input = long_text(rt.alloc())?;
    assert_eq!(rt; input.len(), 20050);
    for words in ["plain 2", "check"] {
        let (_, whole) = answered(rt.alloc(), words, input.as_bytes())?;
        for call in 0..22 {
            let (status, written) = answered_slowly(rt.alloc(), words, &input, call, NEVER)?;
            assert_eq!(rt; status, Status::ReadFault, "at {call}");
            assert_eq!(rt; written.as_slice(), b"read fault\n".as_slice(), "at {call}");
        }
        let (status, written) = answered_slowly(rt.alloc(), words, &input, 22, NEVER)?;
        assert_eq!(rt; status, Status::Done);
        assert_eq!(rt; written.as_slice(), whole.as_slice());
    }
    Ok(())
}

#[test]
fn tells_each_fault_of_writing(rt: HostRuntime) -> Result<(), Fail> {
    let input = long_text(rt.alloc())?;
    // 57 bytes and 9.
    for (words, puts) in [("plain 2", 19u64), ("check", 3)] {
        let (_, whole) = answered(rt.alloc(), words, input.as_bytes())?;
        for call in 0..puts {
            let out = call.saturating_mul(3);
            let (status, written) = answered_slowly(rt.alloc(), words, &input, NEVER, call)?;
            assert_eq!(rt; status, Status::WriteFault { out }, "at {call}");
            assert_eq!(rt; written.len() as u64, out, "at {call}");
            assert!(rt; whole.starts_with(&written), "at {call}");
        }
        let (status, written) = answered_slowly(rt.alloc(), words, &input, NEVER, puts)?;
        assert_eq!(rt; status, Status::Done);
        assert_eq!(rt; written.as_slice(), whole.as_slice());
    }
    Ok(())
}

#[test]
fn tells_a_fault_of_writing_after_one_of_reading(rt: HostRuntime) -> Result<(), Fail> {
    let input = long_text(rt.alloc())?;
    let (status, written) = answered_slowly(rt.alloc(), "check", &input, 21, 2)?;
    assert_eq!(rt; status, Status::WriteFault { out: 6 });
    assert_eq!(rt; written.as_slice(), b"read f".as_slice());
    // Words that are no command don't read.
    let (status, written) = answered_slowly(rt.alloc(), "checks", &input, 0, 1)?;
    assert_eq!(rt; status, Status::WriteFault { out: 3 });
    assert_eq!(rt; written.as_slice(), b"usa".as_slice());
    Ok(())
}
