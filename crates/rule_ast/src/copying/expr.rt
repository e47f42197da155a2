// Copies of expressions and statements.
ghost use Rattle.std.specs.Prelude.{◌≡◌, IfOk};

use crate::copying::Copied;
use crate::expr::{Expr, Stmt};
use pr_value::{Boxed, Items, Memory};
use std::alloc::Global;

#[cycle(copy_expr)]
fn copy_expr(alloc: Global, e: &Expr) -> Result<Expr, Memory>
    ensures { IfOk result (λ copy. copy ≡ e.now) }
{
    match e {
        Expr::Number(number) => Ok(Expr::Number(*number)),
        Expr::Truth(truth) => Ok(Expr::Truth(*truth)),
        Expr::Sym(symbol) => Ok(Expr::Sym(symbol.copy(alloc)?)),
        Expr::SetOf(members) => Ok(Expr::SetOf(copy_exprs(alloc, members.as_slice())?)),
        Expr::ListOf(members) => Ok(Expr::ListOf(copy_exprs(alloc, members.as_slice())?)),
        Expr::Var(name) => Ok(Expr::Var(name.copy(alloc)?)),
        Expr::Read { desc, property } => Ok(Expr::Read {
            desc: desc.copy(alloc)?,
            property: property.copy(alloc)?,
        }),
        Expr::Call { name, args } => Ok(Expr::Call {
            name: name.copy(alloc)?,
            args: copy_exprs(alloc, args.as_slice())?,
        }),
        Expr::Binary { left, op, right } => Ok(Expr::Binary {
            left: copy_boxed(alloc, left)?,
            op: *op,
            right: copy_boxed(alloc, right)?,
        }),
        Expr::Fold {
            fold,
            name,
            over,
            body,
        } => Ok(Expr::Fold {
            fold: *fold,
            name: name.copy(alloc)?,
            over: copy_boxed(alloc, over)?,
            body: copy_boxed(alloc, body)?,
        }),
    }
}

#[cycle(copy_expr)]
fn copy_exprs(alloc: Global, es: &[Expr]) -> Result<Items<Expr>, Memory>
    ensures { IfOk result (λ copies. copies ≡ es.now) }
{
    let mut copies = Items::new(alloc);
    for e in es {
        copies.push(copy_expr(alloc, e)?)?;
    }
    Ok(copies)
}

#[cycle(copy_expr)]
fn copy_boxed(alloc: Global, e: &Boxed<Expr>) -> Result<Boxed<Expr>, Memory>
    ensures { IfOk result (λ copy. copy ≡ e.now) }
{
    Ok(Boxed::new(alloc, copy_expr(alloc, e.get())?)?)
}

impl Copied for Expr {
    fn copy(&self, alloc: Global) -> Result<Expr, Memory> {
        copy_expr(alloc, self)
    }
}

impl Copied for Stmt {
    fn copy(&self, alloc: Global) -> Result<Stmt, Memory> {
        match self {
            Stmt::Set {
                desc,
                property,
                value,
            } => Ok(Stmt::Set {
                desc: desc.copy(alloc)?,
                property: property.copy(alloc)?,
                value: copy_expr(alloc, value)?,
            }),
            Stmt::Copy { to, from } => Ok(Stmt::Copy {
                to: to.copy(alloc)?,
                from: from.copy(alloc)?,
            }),
        }
    }
}
