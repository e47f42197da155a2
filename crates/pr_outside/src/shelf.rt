ghost use Rattle.std.specs.Prelude.{◌≡◌, ◌≢◌, ℕ, Bool, Option, IfOk, IsErrOf};
ghost use Rattle.pr_outside.specs.Counts.{Rose, Counts};
ghost use Rattle.pr_outside.specs.Files.{Files, GivesHeld, IsTooLong, MayFail};

use crate::bytes::Bytes;
use crate::name::Name;
use std::alloc::Global;

/// Why a fetch gave no bytes.
#[derive(Clone, Copy, PartialEq, Eq, Debug)]
pub enum FetchError {
    /// More bytes are held than were asked for at most.
    TooLong,
    /// The bytes could not be read. The shelf has counted it.
    Failed,
    Memory,
}

/// Where texts are fetched from by name.
pub trait Shelf {
    /// The files, where the shelf tells them.
    ghost held: { Self → Option Files };

    /// How many fetches have failed; it stands still at 2^64 - 1.
    ghost faults: { Self → ℕ };

    /// No fetch fails at a name under which bytes are held.
    ghost sure: { Self → Bool };

    /// How many bytes the last fetch took, in a shelf that does not tell its files.
    ghost taken: { Self → ℕ };

    /// The bytes under a name, of which there may be `most`.
    fn fetch(&mut self, alloc: Global, name: &Name, most: usize) -> Result<Bytes, FetchError>
        ensures held { held self.new ≡ held self.old }
        ensures sure { sure self.new ≡ sure self.old }
        ensures counted { Counts (faults self.old) (faults self.new) }
        ensures bytes { IfOk result (λ bytes. GivesHeld (held self.old) name.now most (taken self.new) bytes) }
        ensures too_long { IsErrOf result FetchError.TooLong → IsTooLong (held self.old) name.now most (taken self.new) }
        ensures may_fail { IsErrOf result FetchError.Failed → MayFail (held self.old) (sure self.old) name.now most }
        ensures rose { IsErrOf result FetchError.Failed → Rose (faults self.old) (faults self.new) }
        ensures stays { result ≢ Err FetchError.Failed → faults self.new ≡ faults self.old };
}
