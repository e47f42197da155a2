ghost use Rattle.std.specs.Prelude.{◌≡◌, ◌≢◌, ◌<◌, ◌≤◌, ◌-◌, ◌^◌, Some, false, OnOk, OnErr, IfOk, IsOk, IsErrOf};
ghost use Rattle.std.specs.Ordering.{nat_cmp};
ghost use Rattle.std.specs.FinMap as map;
ghost use Rattle.std.specs.FinSet as set;
ghost use Rattle.pr_outside.specs.Counts as counts;
ghost use Rattle.pr_outside.specs.Counts.{Rose, Counts};
ghost use Rattle.pr_outside.specs.Fetched.{answer_at};
ghost use Rattle.pr_outside.specs.Files.{held_under, GivesHeld, IsTooLong, MayFail};
ghost use Rattle.pr_outside.specs.ShelfState.{next_fails};

use crate::bytes::Bytes;
use crate::count::one_more;
use crate::files::fetch_from;
use crate::name::Name;
use crate::shelf::{FetchError, Shelf};
use pr_value::Memory;
use std::alloc::Global;
use std::collections::VecDeque;
use std::marker::Model;

/// A shelf in memory whose fetches can be made to fail, for tests.
#[derive(Drop)]
pub struct MemShelf {
    files: VecDeque<(Name, Bytes)>,
    calls: u64,
    failing: Vec<u64>,
    faults: u64,
}

impl Model for MemShelf {
    ghost use Rattle.std.specs.FinMap as map;
    ghost use Rattle.std.specs.FinSet as set;
    ghost use Rattle.pr_outside.specs.ShelfState.{ShelfState, shelf_code};

    ghost Value = { ShelfState };

    ghost coded = { shelf_code };

    ghost view = { λ s. record { files = map.from_entries s.files.items; calls = s.calls; failing = set.from_list s.failing.items; faults = s.faults } };
}

impl MemShelf {
    /// A shelf that holds no file, and none of whose fetches is listed to fail.
    pub fn new(alloc: Global) -> MemShelf
        ensures { result ≡ record { files = map.empty; calls = 0; failing = set.empty; faults = 0 } }
    {
        MemShelf {
            files: VecDeque::new(alloc),
            calls: 0,
            failing: Vec::new(alloc),
            faults: 0,
        }
    }

    /// Adds or replaces one file.
    pub fn hold(&mut self, name: Name, bytes: Bytes) -> Result<(), Memory>
        ensures ok { OnOk result (self.new ≡ record self.old { files = map.insert self.old.files name bytes }) }
        ensures err { OnErr result (self.new ≡ self.old) }
    {
        self.files.push_front((name, bytes))?;
        Ok(())
    }

    /// Lists a fetch, counted from 1, as one that fails. To list it again changes nothing.
    pub fn fail_at(&mut self, call: u64) -> Result<(), Memory>
        requires low { 1 ≤ call }
        requires high { call < 2 ^ 64 - 1 }
        ensures ok { OnOk result (self.new ≡ record self.old { failing = set.insert self.old.failing call }) }
        ensures err { OnErr result (self.new ≡ self.old) }
    {
        self.failing.push(call)?;
        Ok(())
    }
}

fn is_listed(failing: &[u64], call: u64) -> bool
    ensures { result ≡ set.contains (set.from_list {R = nat_cmp} failing.now) call }
{
    failing.contains(&call)
}

impl Shelf for MemShelf {
    ghost held = { λ s. Some s.files };

    ghost faults = { λ s. s.faults };

    ghost sure = { λ _. false };

    ghost taken = { λ _. 0 };

    /// `Failed` comes at a name that is not held, and at a listed call where the bytes are not too long; it counts one fault.
    /// Each call is counted, also one that answers `Memory`. The count of calls stands still at 2^64 - 1.
    fn fetch(&mut self, alloc: Global, name: &Name, most: usize) -> Result<Bytes, FetchError>
        ensures held { Some self.new.files ≡ Some self.old.files }
        ensures sure { false ≡ false }
        ensures counted { Counts self.old.faults self.new.faults }
        ensures bytes { IfOk result (λ bytes. GivesHeld (Some self.old.files) name.now most 0 bytes) }
        ensures too_long { IsErrOf result FetchError.TooLong → IsTooLong (Some self.old.files) name.now most 0 }
        ensures may_fail { IsErrOf result FetchError.Failed → MayFail (Some self.old.files) false name.now most }
        ensures rose { IsErrOf result FetchError.Failed → Rose self.old.faults self.new.faults }
        ensures stays { result ≢ Err FetchError.Failed → self.new.faults ≡ self.old.faults }
        ensures fault { IsErrOf result FetchError.Failed → self.new.faults ≡ counts.one_more self.old.faults }
        ensures calls { self.new.calls ≡ counts.one_more self.old.calls }
        ensures failing { self.new.failing ≡ self.old.failing }
        ensures answers { result ≢ Err FetchError.Memory → result ≡ answer_at (held_under self.old.files name.now) most (next_fails self.old) }
        ensures memory { IsErrOf result FetchError.Memory → IsOk (answer_at (held_under self.old.files name.now) most (next_fails self.old)) }
    {
        let faults = self.faults;
        self.calls = one_more(self.calls);
        let fails = is_listed(&self.failing, self.calls);
        let answer = fetch_from(&self.files, alloc, name, most, fails);
        if let Err(FetchError::Failed) = answer {
            self.faults = one_more(faults);
        }
        answer
    }
}
