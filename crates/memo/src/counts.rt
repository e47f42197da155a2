ghost use Rattle.std.specs.Prelude.{◌≡◌, ◌+◌, ◌<◌, ◌^◌, length, slice_get, Some, nat_eq};
ghost use Rattle.derivation.specs.Slices.{one_if};
ghost use Rattle.memo.specs.Counts.{classes_from, lives};
ghost use Rattle.memo.specs.declared.expr.Expr.{Expr};

use crate::expr::Expr;
use crate::homes::expr_get;

/// How many classes and how many expressions there are.
#[derive(Clone, Copy, PartialEq, Eq, Debug)]
pub struct Counts {
    pub classes: usize,
    pub expressions: usize,
}

/// One more where it holds.
fn more(n: usize, holds: bool) -> usize
    requires { n + 1 < 2 ^ 64 }
    ensures { result ≡ n + one_if holds }
{
    if holds { n + 1 } else { n }
}

/// Counts the classes that are not merged into older ones, and the expressions that are there.
pub fn count_all<L>(exprs: &[Expr<L>]) -> Counts
    ensures classes { result.classes ≡ classes_from 0 exprs.now }
    ensures expressions { result.expressions ≡ lives exprs.now }
{
    let mut classes = 0;
    let mut expressions = 0;
    for i in 0..exprs.len() {
        let e = expr_get(exprs, i);
        classes = more(classes, e.class == i);
        expressions = more(expressions, e.live);
    }
    Counts {
        classes,
        expressions,
    }
}
