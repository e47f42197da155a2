ghost use Rattle.std.specs.Prelude.{◌≡◌, map, option_map, IfOk};
ghost use Rattle.rule_ast.specs.Seen.{seen_expr, exprs_of, seen_helper};
ghost use Rattle.rule_ast.specs.Typing.{type_of, signatures_of};
ghost use Rattle.rule_types.specs.Contexts.{seen_context};
ghost use Rattle.rule_types.specs.Scopes.{type_in, types_in};

use crate::calls::call_type;
use crate::context::{Context, Scope};
use crate::folds::Folds;
use crate::names::{read_type, var_type};
use crate::operators::{binary_type, fold_type, number_type, of_symbols};
use pr_value::{Kind, Memory, Property};
use rule_ast::{Expr, Helper};
use std::alloc::Global;

#[cycle(typing)]
fn type_in(alloc: Global, scope: &Scope, folds: &Folds, e: &Expr) -> Result<Option<Kind>, Memory>
    ensures { IfOk result (λ t. t ≡ type_in scope.now folds.now (seen_expr e.now)) }
{
    match e {
        Expr::Number(n) => Ok(number_type(*n)),
        Expr::Truth(_) => Ok(Some(Kind::Truth)),
        Expr::Sym(_) => Ok(Some(Kind::Symbol)),
        Expr::SetOf(members) => {
            let types = types_in(alloc, scope, folds, members.as_slice())?;
            Ok(of_symbols(Kind::Set, types))
        }
        Expr::ListOf(members) => {
            let types = types_in(alloc, scope, folds, members.as_slice())?;
            Ok(of_symbols(Kind::List, types))
        }
        Expr::Var(x) => Ok(var_type(scope, folds, x)),
        Expr::Read { desc, property } => Ok(read_type(scope, desc, property)),
        Expr::Call { name, args } => {
            let types = types_in(alloc, scope, folds, args.as_slice())?;
            Ok(call_type(scope.helpers, name, types))
        }
        Expr::Binary { left, op, right } => {
            let left = type_in(alloc, scope, folds, left.get())?;
            let right = type_in(alloc, scope, folds, right.get())?;
            Ok(binary_type(*op, left, right))
        }
        Expr::Fold {
            fold,
            name,
            over,
            body,
        } => {
            let over = type_in(alloc, scope, folds, over.get())?;
            let within = Folds::Within {
                name,
                others: &*folds,
            };
            let body = type_in(alloc, scope, &within, body.get())?;
            Ok(fold_type(*fold, over, body))
        }
    }
}

#[cycle(typing)]
fn types_in(
    alloc: Global,
    scope: &Scope,
    folds: &Folds,
    es: &[Expr],
) -> Result<Option<Vec<Kind>>, Memory>
    ensures { IfOk result (λ ts. option_map (λ v. v.items) ts ≡ types_in scope.now folds.now (exprs_of (map seen_expr es.now))) }
{
    let mut types = Vec::with_capacity(alloc, es.len())?;
    for e in es {
        match type_in(alloc, scope, folds, e)? {
            Some(kind) => types.push(kind)?,
            None => return Ok(None),
        }
    }
    Ok(Some(types))
}

/// The type of an expression, if it is well typed. A cost counts as a number.
pub fn type_of(
    alloc: Global,
    properties: &[Property],
    helpers: &[Helper],
    context: &Context,
    e: &Expr,
) -> Result<Option<Kind>, Memory>
    ensures { IfOk result (λ t. t ≡ type_of properties.now (signatures_of (map seen_helper helpers.now)) (seen_context context.now) (seen_expr e.now)) }
{
    let scope = Scope {
        properties,
        helpers,
        context,
    };
    let kind = type_in(alloc, &scope, &Folds::Outside, e)?;
    Ok(kind)
}
