// The readers of expressions.
ghost use Rattle.std.specs.Prelude.{◌≡◌, length, map, IfOk};
ghost use Rattle.rule_syntax.specs.Reading as lists;
ghost use Rattle.rule_syntax.specs.Reading.{Gives};
ghost use Rattle.rule_syntax.specs.ReadingExpr as reading;
ghost use Rattle.rule_ast.specs.Seen.{seen_expr};
ghost use Rattle.rule_ast.specs.Syntax as syntax;

use crate::reading::stop::Stop;
use crate::reading::tokens::{after, binop, fold_of, is_free, known, mark, name, truth_of, word};
use pr_value::{Boxed, CAP, Items, Mark, Memory, Symbol, Token};
use rule_ast::{BinOp, Expr, FoldKind};
use std::alloc::Global;

/// The last level of expressions.
pub const LEVELS: u64 = 64;

fn begins_expr(ts: &[Token]) -> bool
    ensures { result ≡ reading.begins_expr ts.now }
{
    match ts {
        [Token::Number(n), ..] => *n <= CAP,
        [Token::Quoted(s), ..] => {
            known(s);
            true
        }
        [Token::Name(s), ..] => { truth_of(s).is_some() || fold_of(s).is_some() || is_free(s) }
        [
            Token::Mark(Mark::OpenBrace | Mark::OpenBracket | Mark::OpenParen),
            ..
        ] => true,
        _ => false,
    }
}

/// An expression of at most so many levels.
#[cycle(expr)]
#[tactic(auto, using(crate::proofs::ExprLevels::levels_lemmas))]
pub fn expr(alloc: Global, levels: u64, ts: &[Token]) -> Result<(Expr, &[Token]), Stop>
    ensures { Gives (λ x. (seen_expr x.0, x.1.now)) result (reading.expr_at levels ts.now) }
{
    if levels == 0 {
        let left = ts.len();
        if begins_expr(ts) {
            return Err(Stop::Deep { left });
        }
        return Err(Stop::Bad { left });
    }
    level(alloc, levels - 1, ts)
}

/// An expression with parts of at most so many levels.
#[cycle(expr)]
fn level(alloc: Global, levels: u64, ts: &[Token]) -> Result<(Expr, &[Token]), Stop>
    ensures { Gives (λ x. (seen_expr x.0, x.1.now)) result (reading.level_at (reading.expr_at levels) ts.now) }
{
    match ts {
        [Token::Number(n), rest @ ..] => {
            if *n > CAP {
                return Err(Stop::Bad { left: ts.len() });
            }
            Ok((Expr::Number(*n), rest))
        }
        [Token::Quoted(s), rest @ ..] => {
            known(s);
            Ok((Expr::Sym(s.copy(alloc)?), rest))
        }
        [Token::Name(s), rest @ ..] => {
            if let Some(truth) = truth_of(s) {
                return Ok((Expr::Truth(truth), rest));
            }
            if let Some(fold) = fold_of(s) {
                return folded(alloc, levels, fold, rest);
            }
            if !is_free(s) {
                return Err(Stop::Bad { left: ts.len() });
            }
            named(alloc, levels, s, rest)
        }
        [Token::Mark(Mark::OpenBrace), rest @ ..] => {
            let (members, rest) = closed_exprs(alloc, levels, Mark::CloseBrace, rest)?;
            Ok((Expr::SetOf(members), rest))
        }
        [Token::Mark(Mark::OpenBracket), rest @ ..] => {
            let (members, rest) = closed_exprs(alloc, levels, Mark::CloseBracket, rest)?;
            Ok((Expr::ListOf(members), rest))
        }
        [Token::Mark(Mark::OpenParen), rest @ ..] => binary(alloc, levels, rest),
        _ => Err(Stop::Bad { left: ts.len() }),
    }
}

/// What a name begins: a call, a descriptor's property or a variable.
#[cycle(expr)]
#[tactic(auto, unfolding(crate::specs::ReadingExpr::named_at))]
fn named<'a>(
    alloc: Global,
    levels: u64,
    s: &Symbol,
    ts: &'a [Token],
) -> Result<(Expr, &'a [Token]), Stop>
    ensures { Gives (λ x. (seen_expr x.0, x.1.now)) result (reading.named_at (reading.expr_at levels) s.now ts.now) }
{
    match ts {
        [Token::Mark(Mark::OpenParen), rest @ ..] => {
            let (args, rest) = closed_exprs(alloc, levels, Mark::CloseParen, rest)?;
            let name = s.copy(alloc)?;
            Ok((Expr::Call { name, args }, rest))
        }
        [Token::Mark(Mark::Dot), rest @ ..] => {
            let (property, rest) = name(alloc, rest)?;
            let desc = s.copy(alloc)?;
            Ok((Expr::Read { desc, property }, rest))
        }
        _ => Ok((Expr::Var(s.copy(alloc)?), ts)),
    }
}

/// What stands behind a fold's name.
#[cycle(expr)]
#[tactic(auto, unfolding(crate::specs::ReadingExpr::folded_at))]
fn folded(
    alloc: Global,
    levels: u64,
    fold: FoldKind,
    ts: &[Token],
) -> Result<(Expr, &[Token]), Stop>
    ensures { Gives (λ x. (seen_expr x.0, x.1.now)) result (reading.folded_at (reading.expr_at levels) fold ts.now) }
{
    let (name, rest) = parameter(alloc, ts)?;
    let (over, rest) = expr(alloc, levels, rest)?;
    let (body, rest) = each(alloc, levels, rest)?;
    Ok((fold_over(alloc, fold, name, over, body)?, rest))
}

/// What stands behind a fold's name, up to what it runs over.
#[tactic(auto, unfolding(crate::specs::ReadingExpr::parameter_at))]
fn parameter(alloc: Global, ts: &[Token]) -> Result<(Symbol, &[Token]), Stop>
    ensures { Gives (λ x. (x.0, x.1.now)) result (reading.parameter_at ts.now) }
{
    let rest = mark(Mark::OpenParen, ts)?;
    let (name, rest) = name(alloc, rest)?;
    let rest = word(b"in", rest)?;
    Ok((name, rest))
}

/// What stands behind what a fold runs over.
#[cycle(expr)]
#[tactic(auto, unfolding(crate::specs::ReadingExpr::each_at))]
fn each(alloc: Global, levels: u64, ts: &[Token]) -> Result<(Expr, &[Token]), Stop>
    ensures { Gives (λ x. (seen_expr x.0, x.1.now)) result (reading.each_at (reading.expr_at levels) ts.now) }
{
    let rest = mark(Mark::Colon, ts)?;
    let (body, rest) = expr(alloc, levels, rest)?;
    let rest = mark(Mark::CloseParen, rest)?;
    Ok((body, rest))
}

fn fold_over(
    alloc: Global,
    fold: FoldKind,
    name: Symbol,
    over: Expr,
    body: Expr,
) -> Result<Expr, Memory>
    ensures { IfOk result (λ e. seen_expr e ≡ syntax.fold fold name (seen_expr over) (seen_expr body)) }
{
    Ok(Expr::Fold {
        fold,
        name,
        over: Boxed::new(alloc, over)?,
        body: Boxed::new(alloc, body)?,
    })
}

/// What stands behind the parenthesis of a binary operation.
#[cycle(expr)]
#[tactic(auto, unfolding(crate::specs::ReadingExpr::binary_at))]
fn binary(alloc: Global, levels: u64, ts: &[Token]) -> Result<(Expr, &[Token]), Stop>
    ensures { Gives (λ x. (seen_expr x.0, x.1.now)) result (reading.binary_at (reading.expr_at levels) ts.now) }
{
    let (a, rest) = expr(alloc, levels, ts)?;
    let ((op, b), rest) = operand(alloc, levels, rest)?;
    Ok((joined(alloc, a, op, b)?, rest))
}

/// What stands behind the first operand.
#[cycle(expr)]
#[tactic(auto, unfolding(crate::specs::ReadingExpr::operand_at))]
fn operand(alloc: Global, levels: u64, ts: &[Token]) -> Result<((BinOp, Expr), &[Token]), Stop>
    ensures { Gives (λ x. ((x.0.0, seen_expr x.0.1), x.1.now)) result (reading.operand_at (reading.expr_at levels) ts.now) }
{
    let (op, rest) = binop(ts)?;
    let (b, rest) = expr(alloc, levels, rest)?;
    let rest = mark(Mark::CloseParen, rest)?;
    Ok(((op, b), rest))
}

fn joined(alloc: Global, a: Expr, op: BinOp, b: Expr) -> Result<Expr, Memory>
    ensures { IfOk result (λ e. seen_expr e ≡ syntax.binary (seen_expr a) op (seen_expr b)) }
{
    Ok(Expr::Binary {
        left: Boxed::new(alloc, a)?,
        op,
        right: Boxed::new(alloc, b)?,
    })
}

/// Any number of expressions, up to the closing mark.
#[cycle(expr)]
#[tactic(auto, unfolding(crate::specs::Reading::closed_at))]
fn closed_exprs(
    alloc: Global,
    levels: u64,
    close: Mark,
    ts: &[Token],
) -> Result<(Items<Expr>, &[Token]), Stop>
    ensures { Gives (λ x. (map seen_expr x.0, x.1.now)) result (lists.closed_at (reading.expr_at levels) close ts.now) }
{
    if let Some(rest) = after(close, ts) {
        return Ok((Items::new(alloc), rest));
    }
    filled_exprs(alloc, levels, close, ts)
}

/// One expression or more, up to the closing mark.
#[cycle(expr)]
#[tactic(auto, unfolding(crate::specs::Reading::filled_at))]
fn filled_exprs(
    alloc: Global,
    levels: u64,
    close: Mark,
    ts: &[Token],
) -> Result<(Items<Expr>, &[Token]), Stop>
    ensures { Gives (λ x. (map seen_expr x.0, x.1.now)) result (lists.filled_at (reading.expr_at levels) close ts.now) }
{
    let (members, rest) = listed_exprs(alloc, levels, ts)?;
    let rest = mark(close, rest)?;
    Ok((members, rest))
}

/// One expression or more, with commas between.
#[cycle(expr)]
fn listed_exprs(alloc: Global, levels: u64, ts: &[Token]) -> Result<(Items<Expr>, &[Token]), Stop>
    ensures { Gives (λ x. (map seen_expr x.0, x.1.now)) result (lists.listed_at (reading.expr_at levels) (length ts.now) ts.now) }
{
    let mut out = Items::new(alloc);
    let mut rest = ts;
    let mut left = ts.len();
    while left > 0 {
        left -= 1;
        let (e, behind) = expr(alloc, levels, rest)?;
        out.push(e)?;
        match after(Mark::Comma, behind) {
            Some(more) => rest = more,
            None => return Ok((out, behind)),
        }
    }
    Err(Stop::Bad { left: rest.len() })
}
