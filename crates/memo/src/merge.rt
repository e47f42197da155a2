ghost use Rattle.std.specs.Prelude.{◌≡◌, ◌<◌, Some, length, slice_get, slice_set, IfOk, OnOk};
ghost use Rattle.memo.specs.Grew.{Grew};
ghost use Rattle.memo.specs.Forest.{IsForest};
ghost use Rattle.memo.specs.Merge.{ups_of, placed, IsPlaced, AreJoinable, IsMergedBy};
ghost use Rattle.memo.specs.declared.expr.Expr.{Expr};

use crate::expr::{Expr, Join, Known};
use crate::union::{Up, flatten, unite};
use derivation::{Label, Log, Steps};
use pr_value::Memory;
use std::alloc::Global;

/// The expressions under their classes.
fn ups<L>(alloc: Global, exprs: &[Expr<L>]) -> Result<Vec<Up>, Memory>
    ensures { IfOk result (λ us. us.items ≡ ups_of exprs.now) }
{
    let mut out = Vec::new(alloc);
    for e in exprs {
        out.push(Up {
            tree: e.tree,
            parent: e.class,
            line: e.home,
        })?;
    }
    Ok(out)
}

/// Puts one expression into another class.
fn place<L>(exprs: &mut [Expr<L>], i: usize, up: Up)
    requires { i < length exprs.old }
    ensures { (e : Expr L) × (slice_get exprs.old i ≡ Some e) × (exprs.new ≡ slice_set exprs.old i (placed e up)) }
{
    let e = &mut exprs[i];
    e.class = up.parent;
    e.home = up.line;
}

/// Puts each expression into its class.
fn write_back<L>(exprs: &mut [Expr<L>], ups: &[Up])
    requires { length ups.now ≡ length exprs.old }
    ensures { IsPlaced ups.now exprs.old exprs.new (length exprs.old) }
{
    for i in 0..ups.len() {
        place(exprs, i, ups[i]);
    }
}

/// Makes the classes one that joins tie together, by what is above each expression.
fn merge_over<L: Label + Drop, S: Steps<L>>(
    alloc: Global,
    log: &mut Log<L, S>,
    exprs: &mut [Expr<L>],
    known: &[Option<Known>],
    joins: &[Join],
    ups: &mut [Up],
) -> Result<(), Memory>
    requires forest { IsForest log.old.terms log.old.lines exprs.old known.now }
    requires lines { AreJoinable log.old.lines exprs.old joins.now }
    requires ups { ups.old ≡ ups_of exprs.old }
    ensures grew { OnOk result (Grew log.old log.new) }
    ensures forest { OnOk result (IsForest log.new.terms log.new.lines exprs.new known.now) }
    ensures merged { OnOk result (IsMergedBy joins.now exprs.old exprs.new) }
{
    unite(alloc, log, ups, joins)?;
    flatten(alloc, log, ups)?;
    write_back(exprs, ups);
    Ok(())
}

/// Makes the classes one that joins tie together, and no others.
pub fn merge<L: Label + Drop, S: Steps<L>>(
    alloc: Global,
    log: &mut Log<L, S>,
    exprs: &mut [Expr<L>],
    known: &[Option<Known>],
    joins: &[Join],
) -> Result<(), Memory>
    requires forest { IsForest log.old.terms log.old.lines exprs.old known.now }
    requires lines { AreJoinable log.old.lines exprs.old joins.now }
    ensures grew { OnOk result (Grew log.old log.new) }
    ensures forest { OnOk result (IsForest log.new.terms log.new.lines exprs.new known.now) }
    ensures merged { OnOk result (IsMergedBy joins.now exprs.old exprs.new) }
{
    let mut above = ups(alloc, exprs)?;
    merge_over(alloc, log, exprs, known, joins, above.as_mut_slice())?;
    Ok(())
}
