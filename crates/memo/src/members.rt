ghost use Rattle.std.specs.Prelude.{◌≡◌, ◌<◌, [], ◌∷◌, ◌++◌, Some, length, slice_get, IfOk, OnOk};
ghost use Rattle.memo.specs.Members.{AreMembers, AreClasses, AreNone, IsPutAt, IsExtended};

use crate::expr::Expr;
use crate::homes::expr_get;
use pr_value::Memory;
use std::alloc::Global;
use std::marker::Model;

/// The numbers of the expressions of a class.
#[derive(Drop)]
pub struct Members {
    items: Vec<usize>,
}

impl Model for Members {
    ghost use Rattle.std.specs.Prelude.{ℕ, List};

    ghost Value = { List ℕ };

    ghost view = { λ w. w.items.items };
}

impl Members {
    fn new(alloc: Global) -> Members
        ensures { result ≡ [] }
    {
        Members {
            items: Vec::new(alloc),
        }
    }

    fn push(&mut self, number: usize) -> Result<(), Memory>
        ensures { OnOk result (self.new ≡ self.old ++ number ∷ []) }
    {
        self.items.push(number)?;
        Ok(())
    }

    fn as_slice(&self) -> &[usize]
        ensures { result.now ≡ self.now }
    {
        self.items.as_slice()
    }
}

pub fn members_get(rows: &[Members], class: usize) -> &[usize]
    requires { class < length rows.now }
    ensures { slice_get rows.now class ≡ Some result.now }
{
    rows[class].as_slice()
}

/// A number more in a class, where it holds.
fn put_at(rows: &mut [Members], class: usize, number: usize, holds: bool) -> Result<(), Memory>
    requires { class < length rows.old }
    ensures { OnOk result (IsPutAt rows.old rows.new class number holds) }
{
    if holds {
        rows[class].push(number)?;
    }
    Ok(())
}

/// No members, for each of the first classes.
fn none_each(alloc: Global, count: usize) -> Result<Vec<Members>, Memory>
    ensures { IfOk result (λ rows. AreNone rows.items count) }
{
    let mut rows = Vec::new(alloc);
    for _ in 0..count {
        rows.push(Members::new(alloc))?;
    }
    Ok(rows)
}

/// Puts each expression that is there into its class.
fn fill<L>(exprs: &[Expr<L>], rows: &mut [Members]) -> Result<(), Memory>
    requires classes { AreClasses exprs.now }
    requires none { AreNone rows.old (length exprs.now) }
    ensures { OnOk result (AreMembers rows.new (length exprs.now) exprs.now) }
{
    for i in 0..exprs.len() {
        let e = expr_get(exprs, i);
        put_at(rows, e.class, i, e.live)?;
    }
    Ok(())
}

/// The expressions of each class.
pub fn group_all<L>(alloc: Global, exprs: &[Expr<L>]) -> Result<Vec<Members>, Memory>
    requires { AreClasses exprs.now }
    ensures { IfOk result (λ rows. AreMembers rows.items (length exprs.now) exprs.now) }
{
    let mut rows = none_each(alloc, exprs.len())?;
    fill(exprs, rows.as_mut_slice())?;
    Ok(rows)
}

/// Groups the expressions anew.
pub fn regroup<L>(alloc: Global, exprs: &[Expr<L>], rows: &mut Vec<Members>) -> Result<(), Memory>
    requires { AreClasses exprs.now }
    ensures { OnOk result (AreMembers rows.new.items (length exprs.now) exprs.now) }
{
    *rows = group_all(alloc, exprs)?;
    Ok(())
}

/// Gives a class that is new its one expression.
pub fn extend<L>(alloc: Global, exprs: &[Expr<L>], rows: &mut Vec<Members>) -> Result<(), Memory>
    ensures { OnOk result (IsExtended rows.old.items rows.new.items (length exprs.now)) }
{
    let class = rows.as_slice().len();
    if class < exprs.len() {
        let mut own = Members::new(alloc);
        own.push(class)?;
        rows.push(own)?;
    }
    Ok(())
}
