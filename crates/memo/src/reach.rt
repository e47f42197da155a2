ghost use Rattle.std.specs.Prelude.{◌≡◌, ◌<◌, ℕ, IfOk, OnOk, Some, length, slice_get};
ghost use Rattle.std.specs.List.{AllZip};
ghost use Rattle.derivation.specs.declared.terms.Term.{Term};
ghost use Rattle.memo.specs.Grew.{Grew};
ghost use Rattle.memo.specs.Forest.{HasLine, EndsAt, IsForest};
ghost use Rattle.memo.specs.Reach.{AreNear, AreAlike, Swaps, Leads};

use crate::expr::{Expr, Known};
use crate::homes::home_of;
use crate::lines::{chain, inside, still, turn};
use derivation::{Label, Log, Steps};
use pr_value::Memory;
use std::alloc::Global;

/// The line `m = n` of two terms that are known in one class.
pub fn across<L: Label + Drop, S: Steps<L>>(
    alloc: Global,
    log: &mut Log<L, S>,
    exprs: &[Expr<L>],
    known: &[Option<Known>],
    m: usize,
    n: usize,
) -> Result<usize, Memory>
    requires forest { IsForest log.old.terms log.old.lines exprs.now known.now }
    requires near { AreNear exprs.now known.now m n }
    ensures grew { Grew log.old log.new }
    ensures line { IfOk result (λ i. HasLine log.new.lines i m n) }
{
    let down = home_of(alloc, log, exprs, known, m)?;
    let up = home_of(alloc, log, exprs, known, n)?;
    let back = turn(alloc, log, up)?;
    chain(alloc, log, down, back)
}

/// The line on to the term with another input at a place, by a line that equates the two.
#[tactic(auto, using(crate::proofs::GrewLaws::grew_trans))]
pub fn swap<L: Label + Drop, S: Steps<L>>(
    alloc: Global,
    log: &mut Log<L, S>,
    path: usize,
    at: usize,
    by: usize,
) -> Result<usize, Memory>
    ensures grew { Grew log.old log.new }
    ensures line { IfOk result (λ i. (from to : ℕ) → HasLine log.old.lines by from to → Swaps log.old log.new path at from to i) }
{
    let step = inside(alloc, log, path, at, by)?;
    chain(alloc, log, path, step)
}

/// The inputs of a term.
pub fn inputs_of<L: Label + Drop, S: Steps<L>>(
    alloc: Global,
    log: &Log<L, S>,
    n: usize,
) -> Result<Vec<usize>, Memory>
    requires { n < length log.now.terms }
    ensures { IfOk result (λ ns. (t : Term L) × (slice_get log.now.terms n ≡ Some t) × (ns.items ≡ t.inputs)) }
{
    let inputs = log.terms().inputs(n);
    let copy = inputs.to_vec(alloc)?;
    Ok(copy)
}

/// The line on to the term with one input replaced by another that is known in the same class.
fn swap_one<L: Label + Drop, S: Steps<L>>(
    alloc: Global,
    log: &mut Log<L, S>,
    exprs: &[Expr<L>],
    known: &[Option<Known>],
    path: usize,
    at: usize,
    from: usize,
    to: usize,
) -> Result<usize, Memory>
    requires forest { IsForest log.old.terms log.old.lines exprs.now known.now }
    requires near { AreNear exprs.now known.now from to }
    ensures grew { Grew log.old log.new }
    ensures line { IfOk result (Swaps log.old log.new path at from to) }
{
    if from == to {
        return Ok(path);
    }
    let by = across(alloc, log, exprs, known, from, to)?;
    swap(alloc, log, path, at, by)
}

/// The line on to the term with other inputs, each known in the class of the one in its place.
fn swap_all<L: Label + Drop, S: Steps<L>>(
    alloc: Global,
    log: &mut Log<L, S>,
    exprs: &[Expr<L>],
    known: &[Option<Known>],
    first: usize,
    from: &[usize],
    to: &[usize],
) -> Result<usize, Memory>
    requires forest { IsForest log.old.terms log.old.lines exprs.now known.now }
    requires near { AllZip (AreNear exprs.now known.now) from.now to.now }
    ensures grew { OnOk result (Grew log.old log.new) }
    ensures line { IfOk result (Leads log.old log.new first from.now to.now) }
{
    let mut path = first;
    for at in 0..from.len() {
        path = swap_one(alloc, log, exprs, known, path, at, from[at], to[at])?;
    }
    Ok(path)
}

/// The line `s = t` of two terms that are alike, by a line that ends at s.
pub fn reach<L: Label + Drop, S: Steps<L>>(
    alloc: Global,
    log: &mut Log<L, S>,
    exprs: &[Expr<L>],
    known: &[Option<Known>],
    line: usize,
    s: usize,
    t: usize,
) -> Result<usize, Memory>
    requires forest { IsForest log.old.terms log.old.lines exprs.now known.now }
    requires ends { EndsAt log.old.lines line s }
    requires alike { AreAlike log.old.terms exprs.now known.now s t }
    ensures grew { OnOk result (Grew log.old log.new) }
    ensures line { IfOk result (λ i. HasLine log.new.lines i s t) }
{
    let from = inputs_of(alloc, log, s)?;
    let to = inputs_of(alloc, log, t)?;
    let first = still(alloc, log, line)?;
    let path = swap_all(
        alloc,
        log,
        exprs,
        known,
        first,
        from.as_slice(),
        to.as_slice(),
    )?;
    log.terms().sound();
    Ok(path)
}
