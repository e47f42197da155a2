ghost use Rattle.std.specs.Prelude.{◌≡◌, ℕ, IfOk};
ghost use Rattle.derivation.specs.Made.{PartOf};
ghost use Rattle.memo.specs.Grew.{Grew, Chains, Turns, Insides, IsEnd, Stills};

use derivation::{Label, Log, PushError, Reason, Steps};
use pr_value::Memory;
use std::alloc::Global;

/// The line `s = u` from `s = t` and `t = u`.
pub fn chain<L: Label + Drop, S: Steps<L>>(
    alloc: Global,
    log: &mut Log<L, S>,
    first: usize,
    second: usize,
) -> Result<usize, Memory>
    ensures grew { Grew log.old log.new }
    ensures line { IfOk result (Chains log.old log.new first second) }
{
    match log.push(alloc, Reason::Chain { first, second }) {
        Ok(i) => Ok(i),
        Err(_) => Err(Memory),
    }
}

/// The line `u = t` from `t = u`.
pub fn turn<L: Label + Drop, S: Steps<L>>(
    alloc: Global,
    log: &mut Log<L, S>,
    of: usize,
) -> Result<usize, Memory>
    ensures grew { Grew log.old log.new }
    ensures line { IfOk result (Turns log.old log.new of) }
{
    match log.push(alloc, Reason::Turn { of }) {
        Ok(i) => Ok(i),
        Err(_) => Err(Memory),
    }
}

/// The line of a line's right tree with an input replaced.
pub fn inside<L: Label + Drop, S: Steps<L>>(
    alloc: Global,
    log: &mut Log<L, S>,
    of: usize,
    at: usize,
    by: usize,
) -> Result<usize, Memory>
    ensures grew { Grew log.old log.new }
    ensures line { IfOk result (Insides log.old log.new of at by) }
{
    match log.push(alloc, Reason::Inside { of, at, by }) {
        Ok(i) => Ok(i),
        Err(_) => Err(Memory),
    }
}

/// The line `t = t` of a line's right tree.
pub fn still<L: Label + Drop, S: Steps<L>>(
    alloc: Global,
    log: &mut Log<L, S>,
    of: usize,
) -> Result<usize, Memory>
    ensures grew { Grew log.old log.new }
    ensures line { IfOk result (Stills log.old log.new of) }
{
    let turned = turn(alloc, log, of)?;
    chain(alloc, log, turned, of)
}
