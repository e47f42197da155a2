ghost use Rattle.std.specs.Prelude.{◌≡◌, ◌≤◌, ℕ, List, IfOk};
ghost use Rattle.prairie_top.specs.Stages.{IsReading, IsHad};
ghost use Rattle.prairie_top.specs.declared.stage.Refusal.{Refusal as SeenRefusal};

use crate::stage::{Refusal, Stop, TextError};
use pr_outside::{FetchError, Name, Shelf};
use std::alloc::Global;

/// The most bytes of the rules and of the query.
pub const TEXT_LIMIT: usize = 1_048_576;

/// The most bytes of the catalog.
pub const CATALOG_LIMIT: usize = 8_388_608;

/// What a text reads as, in the light of what was read before it.
pub trait FromText<C> {
    /// The bytes read as this value.
    ghost reads: { C → Self → List ℕ → Type 0 };

    /// The bytes are refused for what they say.
    ghost refuses: { C → SeenRefusal → List ℕ → Type 0 };

    /// What holds of a value that was read, also where it is not told what the bytes were.
    ghost sound: { C → Self → Type 0 };

    fn from_text(alloc: Global, context: &C, text: &[u8]) -> Result<Self, TextError>
        ensures read { IsReading (reads context.now) (refuses context.now) text.now result }
        ensures sound { IfOk result (sound context.now) };
}

/// The value of the text under a name, which may have so many bytes.
pub fn source<F: Shelf, C, T: FromText<C>>(
    alloc: Global,
    shelf: &mut F,
    name: &Name,
    limit: usize,
    context: &C,
) -> Result<T, Stop>
    ensures held { F.held shelf.new ≡ F.held shelf.old }
    ensures sure { F.sure shelf.new ≡ F.sure shelf.old }
    ensures counted { F.faults shelf.old ≤ F.faults shelf.new }
    ensures had { IsHad (T.reads context.now) (T.refuses context.now)
        (record {
          held = F.held shelf.old;
          sure = F.sure shelf.old;
          before = F.faults shelf.old;
          after = F.faults shelf.new;
        })
        name.now limit result }
    ensures sound { IfOk result (T.sound context.now) }
{
    match shelf.fetch(alloc, name, limit) {
        Ok(bytes) => match T::from_text(alloc, context, bytes.as_slice()) {
            Ok(value) => Ok(value),
            Err(TextError::Refused(refusal)) => Err(Stop::Refused(refusal)),
            Err(TextError::Memory) => Err(Stop::Memory),
        },
        Err(FetchError::TooLong) => Err(Stop::Refused(Refusal::TooLong)),
        Err(FetchError::Failed) => Err(Stop::Failed),
        Err(FetchError::Memory) => Err(Stop::Memory),
    }
}
