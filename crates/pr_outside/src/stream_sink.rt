ghost use Rattle.std.specs.Prelude.{◌≡◌};

use crate::count::one_more;
use crate::sink::{PutError, Sink};
use crate::streams::write_whole;
use std::alloc::Global;
use std::io::Write;

/// A sink over a writer. It tells what is written where the writer does.
#[derive(Drop)]
pub struct StreamSink<W> {
    writer: W,
    calls: u64,
    faults: u64,
}

impl<W: Write> StreamSink<W> {
    /// Nothing has been put yet.
    pub fn new(writer: W) -> StreamSink<W>
        ensures writer { result.writer ≡ writer }
        ensures calls { result.calls ≡ 0 }
        ensures faults { result.faults ≡ 0 }
    {
        StreamSink {
            writer,
            calls: 0,
            faults: 0,
        }
    }
}

impl<W: Write> Sink for StreamSink<W> {
    ghost written = { λ s. W.contents s.writer };

    ghost faults = { λ s. s.faults };

    ghost puts = { λ s. s.calls };

    fn put(&mut self, _alloc: Global, piece: &[u8]) -> Result<(), PutError> {
        let faults = self.faults;
        self.calls = one_more(self.calls);
        match write_whole(&mut self.writer, piece) {
            Ok(()) => Ok(()),
            Err(_) => {
                self.faults = one_more(faults);
                Err(PutError::Failed)
            }
        }
    }
}
