ghost use Rattle.std.specs.Prelude.{◌≡◌, [], Some};

use crate::count::one_more;
use crate::sink::{PutError, Sink};
use std::alloc::Global;
use std::marker::Model;

/// A sink in memory that never fails.
#[derive(Drop)]
pub struct SureSink {
    written: Vec<u8>,
    calls: u64,
}

impl Model for SureSink {
    ghost use Rattle.pr_outside.specs.SureState.{SureState, sure_code};

    ghost Value = { SureState };

    ghost coded = { sure_code };

    ghost view = { λ s. record { written = s.written.items; calls = s.calls } };
}

impl SureSink {
    /// Nothing is written yet.
    pub fn new(alloc: Global) -> SureSink
        ensures { result ≡ record { written = []; calls = 0 } }
    {
        SureSink {
            written: Vec::new(alloc),
            calls: 0,
        }
    }

    /// What is written.
    pub fn bytes(&self) -> &[u8]
        ensures { result.now ≡ self.now.written }
    {
        self.written.as_slice()
    }
}

impl Sink for SureSink {
    ghost written = { λ s. Some s.written };

    ghost faults = { λ _. 0 };

    ghost puts = { λ s. s.calls };

    fn put(&mut self, _alloc: Global, piece: &[u8]) -> Result<(), PutError> {
        self.calls = one_more(self.calls);
        match self.written.extend_from_slice(piece) {
            Ok(()) => Ok(()),
            Err(_) => Err(PutError::Memory),
        }
    }
}
