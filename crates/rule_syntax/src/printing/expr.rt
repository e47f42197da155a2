// The printers of expressions.
ghost use Rattle.std.specs.Prelude.{◌≡◌, ◌++◌, codes, map, OnOk};
ghost use Rattle.rule_ast.specs.Seen.{seen_expr};
ghost use Rattle.rule_syntax.specs.Tokens as text;
ghost use Rattle.rule_syntax.specs.Tokens.{commas, expr_tokens};

use crate::printing::tokens::{
    binop_mark, open_call, push_comma, push_fold_name, push_mark, push_name, push_number,
    push_quoted, push_truth, push_word,
};
use pr_value::{Items, Mark, Memory, Symbol, Token};
use rule_ast::{Expr, FoldKind};
use std::alloc::Global;

#[cycle(push_expr)]
pub fn push_expr(alloc: Global, e: &Expr, tokens: &mut Items<Token>) -> Result<(), Memory>
    ensures { OnOk result (tokens.new ≡ tokens.old ++ expr_tokens (seen_expr e.now)) }
{
    match e {
        Expr::Number(number) => push_number(*number, tokens)?,
        Expr::Truth(truth) => push_truth(alloc, *truth, tokens)?,
        Expr::Sym(symbol) => push_quoted(alloc, symbol, tokens)?,
        Expr::SetOf(members) => {
            push_mark(Mark::OpenBrace, tokens)?;
            push_exprs(alloc, members.as_slice(), tokens)?;
            push_mark(Mark::CloseBrace, tokens)?;
        }
        Expr::ListOf(members) => {
            push_mark(Mark::OpenBracket, tokens)?;
            push_exprs(alloc, members.as_slice(), tokens)?;
            push_mark(Mark::CloseBracket, tokens)?;
        }
        Expr::Var(name) => push_name(alloc, name, tokens)?,
        Expr::Read { desc, property } => push_read(alloc, desc, property, tokens)?,
        Expr::Call { name, args } => {
            open_call(alloc, name, tokens)?;
            push_exprs(alloc, args.as_slice(), tokens)?;
            push_mark(Mark::CloseParen, tokens)?;
        }
        Expr::Binary { left, op, right } => {
            push_mark(Mark::OpenParen, tokens)?;
            push_expr(alloc, left.get(), tokens)?;
            push_mark(binop_mark(*op), tokens)?;
            push_expr(alloc, right.get(), tokens)?;
            push_mark(Mark::CloseParen, tokens)?;
        }
        Expr::Fold {
            fold,
            name,
            over,
            body,
        } => {
            begin_fold(alloc, *fold, name, tokens)?;
            push_expr(alloc, over.get(), tokens)?;
            push_mark(Mark::Colon, tokens)?;
            push_expr(alloc, body.get(), tokens)?;
            push_mark(Mark::CloseParen, tokens)?;
        }
    }
    Ok(())
}

/// The expressions, with commas between.
#[cycle(push_expr)]
fn push_exprs(alloc: Global, es: &[Expr], tokens: &mut Items<Token>) -> Result<(), Memory>
    ensures { OnOk result (tokens.new ≡ tokens.old ++ commas (map (λ e. expr_tokens (seen_expr e)) es.now)) }
{
    for (i, e) in es.iter().enumerate() {
        push_comma(i, tokens)?;
        push_expr(alloc, e, tokens)?;
    }
    Ok(())
}

/// `desc.property`
pub fn push_read(
    alloc: Global,
    desc: &Symbol,
    property: &Symbol,
    tokens: &mut Items<Token>,
) -> Result<(), Memory>
    ensures { OnOk result (tokens.new ≡ tokens.old ++ (text.name desc.now ++ text.m Mark.Dot ++ text.name property.now)) }
{
    push_name(alloc, desc, tokens)?;
    push_mark(Mark::Dot, tokens)?;
    push_name(alloc, property, tokens)?;
    Ok(())
}

/// `fold(name in`
fn begin_fold(
    alloc: Global,
    fold: FoldKind,
    name: &Symbol,
    tokens: &mut Items<Token>,
) -> Result<(), Memory>
    ensures { OnOk result (tokens.new ≡ tokens.old ++ (text.name (text.fold_name fold) ++ text.m Mark.OpenParen ++ text.name name.now ++ text.name (codes "in"))) }
{
    push_fold_name(alloc, fold, tokens)?;
    push_mark(Mark::OpenParen, tokens)?;
    push_name(alloc, name, tokens)?;
    push_word(alloc, b"in", tokens)?;
    Ok(())
}
