ghost use Rattle.std.specs.Prelude.{◌≡◌, ◌<◌, ◌≤◌, ℕ, length, Some, IfOk, OnOk, slice_get, slice_set};
ghost use Rattle.memo.specs.Grew.{Grew};
ghost use Rattle.memo.specs.Forest.{HasLine};
ghost use Rattle.memo.specs.Union.{IsUnion, IsRootOf, IsRootLine, Equates2, IsLinked, IsUnder, Betweens, AreJoins, IsUniting, IsLifted, IsFlattened};
ghost use Rattle.memo.specs.declared.union.Up.{Up};

use crate::expr::Join;
use crate::lines::{chain, turn};
use derivation::{Label, Log, Steps};
use pr_value::Memory;
use std::alloc::Global;

/// A number under an older one, or under itself.
#[derive(Clone, Copy)]
pub struct Up {
    pub tree: usize,
    pub parent: usize,
    /// The line `tree = tree of the parent`.
    pub line: usize,
}

fn up_at(ups: &[Up], i: usize) -> Up
    requires { i < length ups.now }
    ensures { slice_get ups.now i ≡ Some result }
{
    ups[i]
}

/// The root above a number, and the line `its tree = tree of the root`.
fn root_of<L: Label + Drop, S: Steps<L>>(
    alloc: Global,
    log: &mut Log<L, S>,
    ups: &[Up],
    i: usize,
) -> Result<(usize, usize), Memory>
    requires union { IsUnion log.old.lines ups.now }
    requires there { i < length ups.now }
    ensures grew { Grew log.old log.new }
    ensures root { IfOk result (IsRootLine log.new.lines ups.now i) }
{
    let first = up_at(ups, i);
    let mut at = first.parent;
    let mut line = first.line;
    loop {
        let next = up_at(ups, at);
        if next.parent >= at {
            return Ok((at, line));
        }
        line = chain(alloc, log, line, next.line)?;
        at = next.parent;
    }
}

/// Puts a root under an older one, by the line from the one's tree to the other's.
fn put_under(ups: &mut [Up], b: usize, a: usize, line: usize)
    requires there { b < length ups.old }
    ensures { (u : Up) × (slice_get ups.old b ≡ Some u) × (ups.new ≡ slice_set ups.old b (record { tree = u.tree; parent = a; line = line })) }
{
    let tree = ups[b].tree;
    ups[b] = Up {
        tree,
        parent: a,
        line,
    };
}

/// The line `tree of b = tree of a`, from lines of two trees to those and a line between the two.
fn between<L: Label + Drop, S: Steps<L>>(
    alloc: Global,
    log: &mut Log<L, S>,
    to_b: usize,
    across: usize,
    to_a: usize,
) -> Result<usize, Memory>
    ensures grew { Grew log.old log.new }
    ensures line { IfOk result (Betweens log.old log.new to_b across to_a) }
{
    let from_b = turn(alloc, log, to_b)?;
    let half = chain(alloc, log, from_b, across)?;
    chain(alloc, log, half, to_a)
}

/// Puts the roots of two numbers together, by a line that equates their trees.
fn link<L: Label + Drop, S: Steps<L>>(
    alloc: Global,
    log: &mut Log<L, S>,
    ups: &mut [Up],
    join: Join,
) -> Result<(), Memory>
    requires union { IsUnion log.old.lines ups.old }
    requires line { Equates2 log.old.lines ups.old join.line join.left join.right }
    requires there { (join.left < length ups.old) × (join.right < length ups.old) }
    ensures grew { OnOk result (Grew log.old log.new) }
    ensures linked { OnOk result (IsLinked log.new.lines ups.old ups.new join.left join.right) }
{
    let (a, to_a) = root_of(alloc, log, ups, join.left)?;
    let (b, to_b) = root_of(alloc, log, ups, join.right)?;
    if a < b {
        let back = turn(alloc, log, join.line)?;
        let line = between(alloc, log, to_b, back, to_a)?;
        put_under(ups, b, a, line);
        return Ok(());
    }
    if b < a {
        let line = between(alloc, log, to_a, join.line, to_b)?;
        put_under(ups, a, b, line);
    }
    Ok(())
}

/// Puts together what the joins say.
pub fn unite<L: Label + Drop, S: Steps<L>>(
    alloc: Global,
    log: &mut Log<L, S>,
    ups: &mut [Up],
    joins: &[Join],
) -> Result<(), Memory>
    requires union { IsUnion log.old.lines ups.old }
    requires lines { AreJoins log.old.lines ups.old joins.now }
    ensures grew { OnOk result (Grew log.old log.new) }
    ensures united { OnOk result (IsUniting log.new.lines joins.now ups.old ups.new (length joins.now)) }
{
    for join in joins {
        link(alloc, log, ups, *join)?;
    }
    Ok(())
}

/// Puts a number under its parent's parent.
fn lift<L: Label + Drop, S: Steps<L>>(
    alloc: Global,
    log: &mut Log<L, S>,
    ups: &mut [Up],
    i: usize,
) -> Result<(), Memory>
    requires union { IsUnion log.old.lines ups.old }
    requires there { i < length ups.old }
    ensures grew { OnOk result (Grew log.old log.new) }
    ensures lifted { OnOk result (IsLifted log.new.lines ups.old ups.new i) }
{
    let own = up_at(ups, i);
    let over = up_at(ups, own.parent);
    if over.parent < own.parent {
        let line = chain(alloc, log, own.line, over.line)?;
        put_under(ups, i, over.parent, line);
    }
    Ok(())
}

/// Puts each number right under its root.
pub fn flatten<L: Label + Drop, S: Steps<L>>(
    alloc: Global,
    log: &mut Log<L, S>,
    ups: &mut [Up],
) -> Result<(), Memory>
    requires { IsUnion log.old.lines ups.old }
    ensures grew { OnOk result (Grew log.old log.new) }
    ensures flat { OnOk result (IsFlattened log.new.lines ups.old ups.new (length ups.old)) }
{
    for i in 0..ups.len() {
        lift(alloc, log, ups, i)?;
    }
    Ok(())
}
