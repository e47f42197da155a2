ghost use Rattle.std.specs.Prelude.{◌≡◌, ◌<◌, [], Some, All, length, slice_get, slice_set, IfOk, OnOk};
ghost use Rattle.std.specs.List.{AllZip};
ghost use Rattle.memo.specs.Grew.{Grew};
ghost use Rattle.memo.specs.Forest.{IsForest};
ghost use Rattle.memo.specs.Rebuild.{IsRootClass, IsKeyOf, renamed, AreTwins, IsNoted, IsReindexed, IsPass};
ghost use Rattle.memo.specs.Kept.{Indexes};
ghost use Rattle.memo.specs.declared.expr.Expr.{Expr};

use crate::expr::{Expr, Join, Known};
use crate::homes::expr_get;
use crate::index::enter;
use crate::reach::reach;
use derivation::{Label, Log, Numbers, Steps, Term};
use indexmap::IndexMap;
use pr_value::Memory;
use std::alloc::Global;

/// The roots of classes.
pub fn roots_of<L>(
    alloc: Global,
    exprs: &[Expr<L>],
    classes: &[usize],
) -> Result<Vec<usize>, Memory>
    requires { All (λ c. c < length exprs.now) classes.now }
    ensures { IfOk result (λ cs. AllZip (IsRootClass exprs.now) classes.now cs.items) }
{
    let mut out = Vec::new(alloc);
    for c in classes {
        let e = expr_get(exprs, *c);
        out.push(e.class)?;
    }
    Ok(out)
}

/// An expression's label over the roots of its input classes.
fn key_of<L: Label + Drop>(alloc: Global, exprs: &[Expr<L>], i: usize) -> Result<Term<L>, Memory>
    requires there { i < length exprs.now }
    requires inputs { (e : Expr L) → slice_get exprs.now i ≡ Some e → All (λ c. c < length exprs.now) e.inputs }
    ensures { IfOk result (IsKeyOf exprs.now i) }
{
    let e = expr_get(exprs, i);
    let inputs = roots_of(alloc, exprs, e.inputs.as_slice())?;
    let label = e.label.copy(alloc)?;
    Ok(Term {
        label,
        inputs: Numbers::from_vec(inputs),
    })
}

/// Gives one expression other inputs.
fn rename<L: Drop>(exprs: &mut [Expr<L>], i: usize, inputs: Numbers, live: bool)
    requires { i < length exprs.old }
    ensures { (e : Expr L) × (slice_get exprs.old i ≡ Some e) × (exprs.new ≡ slice_set exprs.old i (renamed e inputs live)) }
{
    let e = &mut exprs[i];
    e.inputs = inputs;
    e.live = live;
}

/// Notes that two expressions that are alike are to be joined, where their classes differ.
fn note<L: Label + Drop, S: Steps<L>>(
    alloc: Global,
    log: &mut Log<L, S>,
    exprs: &[Expr<L>],
    known: &[Option<Known>],
    joins: &mut Vec<Join>,
    f: usize,
    i: usize,
) -> Result<(), Memory>
    requires forest { IsForest log.old.terms log.old.lines exprs.now known.now }
    requires twins { AreTwins exprs.now f i }
    requires there { (f < length exprs.now) × (i < length exprs.now) }
    ensures grew { OnOk result (Grew log.old log.new) }
    ensures noted { OnOk result (IsNoted log.new.lines exprs.now joins.old.items joins.new.items f i) }
{
    let one = expr_get(exprs, f);
    let other = expr_get(exprs, i);
    if one.class == other.class {
        return Ok(());
    }
    let line = reach(alloc, log, exprs, known, one.line, one.tree, other.tree)?;
    joins.push(Join {
        left: f,
        right: i,
        line,
    })?;
    Ok(())
}

/// Renames one expression's inputs and indexes it. If one is there that is alike, it goes.
fn reindex<L: Label + Drop, S: Steps<L>>(
    alloc: Global,
    log: &mut Log<L, S>,
    exprs: &mut [Expr<L>],
    index: &mut IndexMap<Term<L>, usize>,
    known: &[Option<Known>],
    joins: &mut Vec<Join>,
    i: usize,
) -> Result<(), Memory>
    requires forest { IsForest log.old.terms log.old.lines exprs.old known.now }
    requires there { i < length exprs.old }
    requires indexed { Indexes index.old.entries exprs.old i }
    ensures grew { OnOk result (Grew log.old log.new) }
    ensures forest { OnOk result (IsForest log.new.terms log.new.lines exprs.new known.now) }
    ensures reindexed { OnOk result (IsReindexed log.new.lines exprs.old exprs.new index.old.entries index.new.entries joins.old.items joins.new.items i) }
{
    if !expr_get(exprs, i).live {
        return Ok(());
    }
    let key = key_of(alloc, exprs, i)?;
    let inputs = Numbers::from_slice(alloc, key.inputs.as_slice())?;
    let found = enter(index, key, i)?;
    match found {
        None => {
            rename(exprs, i, inputs, true);
            Ok(())
        }
        Some(f) => {
            rename(exprs, i, inputs, false);
            note(alloc, log, exprs, known, joins, f, i)?;
            Ok(())
        }
    }
}

/// Renames and indexes the expressions anew. One that is alike an older one goes, and the two are to be joined.
pub fn rebuild<L: Label + Drop, S: Steps<L>>(
    alloc: Global,
    log: &mut Log<L, S>,
    exprs: &mut [Expr<L>],
    index: &mut IndexMap<Term<L>, usize>,
    known: &[Option<Known>],
    joins: &mut Vec<Join>,
) -> Result<(), Memory>
    requires forest { IsForest log.old.terms log.old.lines exprs.old known.now }
    requires none { joins.old.items ≡ [] }
    ensures grew { OnOk result (Grew log.old log.new) }
    ensures forest { OnOk result (IsForest log.new.terms log.new.lines exprs.new known.now) }
    ensures pass { OnOk result (IsPass log.new.lines exprs.old exprs.new index.new.entries joins.new.items (length exprs.old)) }
{
    index.clear();
    for i in 0..exprs.len() {
        reindex(alloc, log, exprs, index, known, joins, i)?;
    }
    Ok(())
}
