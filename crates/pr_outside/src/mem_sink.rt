ghost use Rattle.std.specs.Prelude.{◌≡◌, ◌≢◌, ◌+◌, ◌<◌, ◌≤◌, ◌-◌, ◌^◌, [], ◌++◌, Some, None, length, take, vec_len, vec_capacity, OnOk, OnErr, IsErrOf};
ghost use Rattle.std.specs.Ordering.{nat_cmp};
ghost use Rattle.std.specs.FinMap as map;
ghost use Rattle.pr_outside.specs.Counts as counts;
ghost use Rattle.pr_outside.specs.Counts.{Rose, Counts};
ghost use Rattle.pr_outside.specs.SinkState.{appended, next_takes, put_answer};
ghost use Rattle.pr_outside.specs.Written.{Appends, AppendsPrefix};

use crate::count::one_more;
use crate::sink::{PutError, Sink};
use pr_value::Memory;
use std::alloc::Global;
use std::collections::VecDeque;
use std::marker::Model;

/// A sink in memory whose puts can be made to fail, for tests.
#[derive(Drop)]
pub struct MemSink {
    written: Vec<u8>,
    calls: u64,
    failing: VecDeque<(u64, usize)>,
    faults: u64,
    // Room for as many bytes as listed puts will take is kept free in `written`.
    kept: usize,
}

impl Model for MemSink {
    ghost use Rattle.std.specs.FinMap as map;
    ghost use Rattle.std.specs.Prelude.{vec_len, vec_capacity};
    ghost use Rattle.pr_outside.specs.Room.{KeepsRoom};
    ghost use Rattle.pr_outside.specs.SinkState.{SinkState, sink_code};

    ghost Value = { SinkState };

    ghost coded = { sink_code };

    ghost view = { λ s. record { written = s.written.items; calls = s.calls; failing = map.from_entries s.failing.items; faults = s.faults } };

    ghost invariant = { λ s. KeepsRoom s.calls s.failing.items s.kept (vec_len s.written) (vec_capacity s.written) };
}

impl MemSink {
    /// Nothing is written yet, and no put is listed to fail.
    pub fn new(alloc: Global) -> MemSink
        ensures { result ≡ record { written = []; calls = 0; failing = map.empty; faults = 0 } }
    {
        MemSink {
            written: Vec::new(alloc),
            calls: 0,
            failing: VecDeque::new(alloc),
            faults: 0,
            kept: 0,
        }
    }

    /// Lists a put, counted from 1, as one that fails after it took this many bytes, or the whole piece where that is shorter.
    /// A later listing of the same put replaces an earlier one. Room for these bytes is kept from now on.
    pub fn fail_at(&mut self, call: u64, taken: usize) -> Result<(), Memory>
        requires low { 1 ≤ call }
        requires high { call < 2 ^ 64 - 1 }
        ensures ok { OnOk result (self.new ≡ record self.old { failing = map.insert self.old.failing call taken }) }
        ensures err { OnErr result (self.new ≡ self.old) }
    {
        let Some(kept) = self.kept.checked_add(taken) else {
            return Err(Memory);
        };
        self.written.reserve(kept)?;
        self.failing.push_front((call, taken))?;
        self.kept = kept;
        Ok(())
    }

    /// What is written.
    pub fn bytes(&self) -> &[u8]
        ensures { result.now ≡ self.now.written }
    {
        self.written.as_slice()
    }
}

/// How many bytes the put of this number takes, where it is listed; the newest listing counts.
fn taken_at(failing: &VecDeque<(u64, usize)>, call: u64) -> Option<usize>
    ensures { result ≡ map.get (map.from_entries {R = nat_cmp} failing.now.items) call }
{
    for &(listed, taken) in failing {
        if call == listed {
            return Some(taken);
        }
    }
    None
}

/// What is appended of a piece.
fn part(taken: usize, piece: &[u8]) -> &[u8]
    ensures part { result.now ≡ take taken piece.now }
    ensures within { length result.now ≤ taken }
{
    if taken < piece.len() {
        &piece[..taken]
    } else {
        piece
    }
}

/// Appends the piece, and leaves room for as many bytes as are kept.
fn append(written: &mut Vec<u8>, kept: usize, piece: &[u8]) -> Result<(), Memory>
    requires { vec_len written.old + kept ≤ vec_capacity written.old }
    ensures ok { OnOk result (written.new.items ≡ written.old.items ++ piece.now) }
    ensures err { OnErr result (written.new.items ≡ written.old.items) }
    ensures room { vec_len written.new + kept ≤ vec_capacity written.new }
{
    let Some(room) = kept.checked_add(piece.len()) else {
        return Err(Memory);
    };
    written.reserve(room)?;
    written.extend_from_slice(piece)?;
    Ok(())
}

/// Appends bytes for which there is room.
fn append_kept(written: &mut Vec<u8>, kept: usize, part: &[u8])
    requires room { vec_len written.old + kept ≤ vec_capacity written.old }
    requires within { length part.now ≤ kept }
    ensures all { written.new.items ≡ written.old.items ++ part.now }
    ensures room { vec_len written.new + (kept - length part.now) ≤ vec_capacity written.new }
{
    let _ = written.extend_from_slice(part);
}

impl Sink for MemSink {
    ghost written = { λ s. Some s.written };

    ghost faults = { λ s. s.faults };

    ghost puts = { λ s. s.calls };

    /// `Failed` comes exactly at a listed call, and counts one fault.
    /// Each call is counted, also one that answers `Memory`. The count of calls stands still at 2^64 - 1.
    fn put(&mut self, _alloc: Global, piece: &[u8]) -> Result<(), PutError>
        ensures counted { Counts self.old.faults self.new.faults }
        ensures ok { OnOk result (Appends (Some self.old.written) piece.now (Some self.new.written)) }
        ensures prefix { IsErrOf result PutError.Failed → AppendsPrefix (Some self.old.written) piece.now (Some self.new.written) }
        ensures rose { IsErrOf result PutError.Failed → Rose self.old.faults self.new.faults }
        ensures memory { IsErrOf result PutError.Memory → Some self.new.written ≡ Some self.old.written }
        ensures stays { result ≢ Err PutError.Failed → self.new.faults ≡ self.old.faults }
        ensures fault { IsErrOf result PutError.Failed → self.new.faults ≡ counts.one_more self.old.faults }
        ensures numbered { self.new.calls ≡ counts.one_more self.old.calls }
        ensures failing { self.new.failing ≡ self.old.failing }
        ensures answers { result ≢ Err PutError.Memory → result ≡ put_answer (next_takes self.old) }
        ensures sure { IsErrOf result PutError.Memory → next_takes self.old ≡ None }
        ensures written { result ≢ Err PutError.Memory → self.new.written ≡ self.old.written ++ appended (next_takes self.old) piece.now }
    {
        let faults = self.faults;
        self.calls = one_more(self.calls);
        let Some(taken) = taken_at(&self.failing, self.calls) else {
            return match append(&mut self.written, self.kept, piece) {
                Ok(()) => Ok(()),
                Err(Memory) => Err(PutError::Memory),
            };
        };
        append_kept(&mut self.written, self.kept, part(taken, piece));
        self.kept -= taken;
        self.faults = one_more(faults);
        Err(PutError::Failed)
    }
}
