ghost use Rattle.std.specs.Prelude.{◌≡◌, ◌≢◌, Some, true, false, OnOk, OnErr, IfOk, IsOk, IsErrOf};
ghost use Rattle.std.specs.FinMap as map;
ghost use Rattle.pr_outside.specs.Counts as counts;
ghost use Rattle.pr_outside.specs.Counts.{Rose, Counts};
ghost use Rattle.pr_outside.specs.Fetched.{answer_at};
ghost use Rattle.pr_outside.specs.Files.{held_under, GivesHeld, IsTooLong, MayFail};
ghost use Rattle.pr_outside.specs.Kept.{Kept};

use crate::bytes::Bytes;
use crate::count::one_more;
use crate::files::fetch_from;
use crate::name::Name;
use crate::shelf::{FetchError, Shelf};
use pr_value::Memory;
use std::alloc::Global;
use std::collections::VecDeque;
use std::marker::Model;

/// A shelf in memory that fails only at names that it does not hold.
#[derive(Drop)]
pub struct SureShelf {
    files: VecDeque<(Name, Bytes)>,
    faults: u64,
}

impl Model for SureShelf {
    ghost use Rattle.std.specs.FinMap as map;
    ghost use Rattle.pr_outside.specs.Kept.{Kept, kept_code};

    ghost Value = { Kept };

    ghost coded = { kept_code };

    ghost view = { λ s. record { files = map.from_entries s.files.items; faults = s.faults } };
}

impl SureShelf {
    /// A shelf that holds no file.
    pub fn new(alloc: Global) -> SureShelf
        ensures { result ≡ record { files = map.empty; faults = 0 } }
    {
        SureShelf {
            files: VecDeque::new(alloc),
            faults: 0,
        }
    }

    /// Adds or replaces one file.
    pub fn hold(&mut self, name: Name, bytes: Bytes) -> Result<(), Memory>
        ensures ok { OnOk result (self.new ≡ record self.old { files = map.insert self.old.files name bytes }) }
        ensures err { OnErr result (self.new ≡ self.old) }
    {
        self.files.push_front((name, bytes))?;
        Ok(())
    }
}

impl Shelf for SureShelf {
    ghost held = { λ s. Some s.files };

    ghost faults = { λ s. s.faults };

    ghost sure = { λ _. true };

    ghost taken = { λ _. 0 };

    /// `Failed` comes exactly at a name that is not held, and counts one fault.
    fn fetch(&mut self, alloc: Global, name: &Name, most: usize) -> Result<Bytes, FetchError>
        ensures held { Some self.new.files ≡ Some self.old.files }
        ensures sure { true ≡ true }
        ensures counted { Counts self.old.faults self.new.faults }
        ensures bytes { IfOk result (λ bytes. GivesHeld (Some self.old.files) name.now most 0 bytes) }
        ensures too_long { IsErrOf result FetchError.TooLong → IsTooLong (Some self.old.files) name.now most 0 }
        ensures may_fail { IsErrOf result FetchError.Failed → MayFail (Some self.old.files) true name.now most }
        ensures rose { IsErrOf result FetchError.Failed → Rose self.old.faults self.new.faults }
        ensures stays { result ≢ Err FetchError.Failed → self.new.faults ≡ self.old.faults }
        ensures fault { IsErrOf result FetchError.Failed → self.new.faults ≡ counts.one_more self.old.faults }
        ensures answers { result ≢ Err FetchError.Memory → result ≡ answer_at (held_under self.old.files name.now) most false }
        ensures memory { IsErrOf result FetchError.Memory → IsOk (answer_at (held_under self.old.files name.now) most false) }
    {
        let faults = self.faults;
        let answer = fetch_from(&self.files, alloc, name, most, false);
        if let Err(FetchError::Failed) = answer {
            self.faults = one_more(faults);
        }
        answer
    }
}
