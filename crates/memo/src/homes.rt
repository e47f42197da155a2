ghost use Rattle.std.specs.Prelude.{◌≡◌, ◌<◌, length, option_copied, Some, None, IfOk, IfSome, slice_get, MatchOption};
ghost use Rattle.memo.specs.Grew.{Grew};
ghost use Rattle.memo.specs.Forest.{IsForest, IsKnownIn, IsKnownOf, HasLine, LeadsHome};

use crate::expr::{Expr, Known};
use crate::lines::chain;
use derivation::{Label, Log, Steps};
use pr_value::Memory;
use std::alloc::Global;

pub fn known_at(known: &[Option<Known>], n: usize) -> Option<Known>
    ensures { IsKnownOf known.now n result }
{
    match known.get(n) {
        Some(k) => *k,
        None => None,
    }
}

pub fn expr_at<L>(exprs: &[Expr<L>], i: usize) -> Option<&Expr<L>>
    ensures { option_copied result ≡ slice_get exprs.now i }
{
    exprs.get(i)
}

pub fn expr_get<L>(exprs: &[Expr<L>], i: usize) -> &Expr<L>
    requires { i < length exprs.now }
    ensures { slice_get exprs.now i ≡ Some result.now }
{
    &exprs[i]
}

/// The line `term = tree of the root`, of a known term.
pub fn home_of<L: Label + Drop, S: Steps<L>>(
    alloc: Global,
    log: &mut Log<L, S>,
    exprs: &[Expr<L>],
    known: &[Option<Known>],
    n: usize,
) -> Result<usize, Memory>
    requires { IsForest log.old.terms log.old.lines exprs.now known.now }
    ensures grew { Grew log.old log.new }
    ensures line { IfOk result (LeadsHome log.new.lines exprs.now known.now n) }
{
    let Some(k) = known_at(known, n) else {
        return Err(Memory);
    };
    let Some(e) = expr_at(exprs, k.expr) else {
        return Err(Memory);
    };
    chain(alloc, log, k.line, e.home)
}
