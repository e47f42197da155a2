ghost use Rattle.std.specs.Prelude.{◌≡◌, [], OnOk};
ghost use Rattle.memo.specs.Grew.{Grew};
ghost use Rattle.memo.specs.Memos.{MemoValue};
ghost use Rattle.memo.specs.Settle.{IsTurning, IsMerging};

use crate::expr::{Expr, Join, Known};
use crate::merge::merge;
use crate::rebuild::rebuild;
use derivation::{Label, Log, Steps, Term};
use indexmap::IndexMap;
use pr_value::Memory;
use std::alloc::Global;

/// Makes the joins, and indexes the expressions anew.
fn turn_once<L: Label + Drop, S: Steps<L>>(
    alloc: Global,
    log: &mut Log<L, S>,
    exprs: &mut [Expr<L>],
    index: &mut IndexMap<Term<L>, usize>,
    known: &[Option<Known>],
    joins: &mut Vec<Join>,
) -> Result<(), Memory>
    requires turning { IsTurning log.old.terms log.old.lines exprs.old known.now index.old.entries joins.old.items }
    ensures grew { OnOk result (Grew log.old log.new) }
    ensures turning { OnOk result (IsTurning log.new.terms log.new.lines exprs.new known.now index.new.entries joins.new.items) }
    ensures merging { OnOk result ((memo : MemoValue L S) → IsMerging memo exprs.old joins.old.items → IsMerging memo exprs.new joins.new.items) }
{
    merge(alloc, log, exprs, known, joins.as_slice())?;
    joins.clear();
    rebuild(alloc, log, exprs, index, known, joins)?;
    Ok(())
}

/// Whether no joins are left.
fn all_made(joins: &[Join]) -> Result<(), Memory>
    ensures { OnOk result (joins.now ≡ []) }
{
    if joins.is_empty() {
        Ok(())
    } else {
        Err(Memory)
    }
}

/// Merges what is joined and what is alike, until no two are alike.
pub fn settle_in<L: Label + Drop, S: Steps<L>>(
    alloc: Global,
    log: &mut Log<L, S>,
    exprs: &mut [Expr<L>],
    index: &mut IndexMap<Term<L>, usize>,
    known: &[Option<Known>],
    joins: &mut Vec<Join>,
) -> Result<(), Memory>
    requires turning { IsTurning log.old.terms log.old.lines exprs.old known.now index.old.entries joins.old.items }
    ensures grew { OnOk result (Grew log.old log.new) }
    ensures turning { OnOk result (IsTurning log.new.terms log.new.lines exprs.new known.now index.new.entries []) }
    ensures none { OnOk result (joins.new.items ≡ []) }
    ensures merging { OnOk result ((memo : MemoValue L S) → IsMerging memo exprs.old joins.old.items → IsMerging memo exprs.new []) }
{
    for _ in 0..exprs.len() {
        if joins.is_empty() {
            return Ok(());
        }
        turn_once(alloc, log, exprs, index, known, joins)?;
    }
    all_made(joins.as_slice())?;
    Ok(())
}
