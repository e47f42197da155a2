ghost use Rattle.std.specs.Prelude.{◌≡◌, ◌≢◌, ℕ, List, Option, OnOk, IsErrOf};
ghost use Rattle.pr_outside.specs.Counts.{Rose, Counts, one_more};
ghost use Rattle.pr_outside.specs.Written.{Appends, AppendsPrefix};

use std::alloc::Global;

/// Why a piece was not put.
#[derive(Clone, Copy, PartialEq, Eq, Debug)]
pub enum PutError {
    /// Not all of the piece could be written. The sink has counted it.
    Failed,
    /// There was not enough memory, and nothing was written.
    Memory,
}

/// Where output is put.
pub trait Sink {
    /// All bytes that were written, where the sink tells them.
    ghost written: { Self → Option (List ℕ) };

    /// How many puts have failed; it stands still at 2^64 - 1.
    ghost faults: { Self → ℕ };

    /// How many puts there were; it stands still at 2^64 - 1.
    ghost puts: { Self → ℕ };

    /// Appends the piece. After `Failed` a prefix of it is appended, after `Memory` nothing.
    fn put(&mut self, alloc: Global, piece: &[u8]) -> Result<(), PutError>
        ensures counted { Counts (faults self.old) (faults self.new) }
        ensures numbered { puts self.new ≡ one_more (puts self.old) }
        ensures ok { OnOk result (Appends (written self.old) piece.now (written self.new)) }
        ensures prefix { IsErrOf result PutError.Failed → AppendsPrefix (written self.old) piece.now (written self.new) }
        ensures rose { IsErrOf result PutError.Failed → Rose (faults self.old) (faults self.new) }
        ensures memory { IsErrOf result PutError.Memory → written self.new ≡ written self.old }
        ensures stays { result ≢ Err PutError.Failed → faults self.new ≡ faults self.old };
}
