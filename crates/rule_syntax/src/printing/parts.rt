// The printers of statements and declarations.
ghost use Rattle.std.specs.Prelude.{◌≡◌, ◌++◌, map, OnOk};
ghost use Rattle.rule_ast.specs.Seen.{seen_expr, seen_stmt, seen_body, seen_operator, seen_helper};
ghost use Rattle.rule_syntax.specs.Tokens as text;
ghost use Rattle.rule_syntax.specs.Tokens.{block, body_tokens, stmt_tokens, property_tokens, operator_tokens, algorithm_tokens, param_tokens, helper_tokens};

use crate::printing::expr::{push_expr, push_read};
use crate::printing::lists::{Printed, push_all, push_listed};
use crate::printing::tokens::{
    begin, close_side, push_kind, push_mark, push_name, push_number, push_word,
};
use pr_value::{Items, Kind, Mark, Memory, Property, Symbol, Token};
use rule_ast::{Algorithm, Body, Expr, Helper, Operator, Param, Stmt};
use std::alloc::Global;

/// `desc.property = value;`
fn push_set(
    alloc: Global,
    desc: &Symbol,
    property: &Symbol,
    value: &Expr,
    tokens: &mut Items<Token>,
) -> Result<(), Memory>
    ensures { OnOk result (tokens.new ≡ tokens.old ++ stmt_tokens (seen_stmt (Stmt.Set desc.now property.now value.now))) }
{
    push_read(alloc, desc, property, tokens)?;
    push_mark(Mark::Assign, tokens)?;
    push_expr(alloc, value, tokens)?;
    push_mark(Mark::Semicolon, tokens)?;
    Ok(())
}

/// `to = from;`
fn push_copy(
    alloc: Global,
    to: &Symbol,
    from: &Symbol,
    tokens: &mut Items<Token>,
) -> Result<(), Memory>
    ensures { OnOk result (tokens.new ≡ tokens.old ++ stmt_tokens (seen_stmt (Stmt.Copy to.now from.now))) }
{
    push_name(alloc, to, tokens)?;
    push_mark(Mark::Assign, tokens)?;
    push_name(alloc, from, tokens)?;
    push_mark(Mark::Semicolon, tokens)?;
    Ok(())
}

impl Printed for Stmt {
    ghost spelling = { λ s. stmt_tokens (seen_stmt s) };

    fn print(&self, alloc: Global, tokens: &mut Items<Token>) -> Result<(), Memory> {
        match self {
            Stmt::Set {
                desc,
                property,
                value,
            } => {
                push_set(alloc, desc, property, value, tokens)?;
                Ok(())
            }
            Stmt::Copy { to, from } => {
                push_copy(alloc, to, from, tokens)?;
                Ok(())
            }
        }
    }
}

fn push_block(alloc: Global, stmts: &[Stmt], tokens: &mut Items<Token>) -> Result<(), Memory>
    ensures { OnOk result (tokens.new ≡ tokens.old ++ block (map seen_stmt stmts.now)) }
{
    push_mark(Mark::OpenBrace, tokens)?;
    push_all(alloc, stmts, tokens)?;
    push_mark(Mark::CloseBrace, tokens)?;
    Ok(())
}

/// The parts of a rule behind its sides.
pub fn push_body(alloc: Global, body: &Body, tokens: &mut Items<Token>) -> Result<(), Memory>
    ensures { OnOk result (tokens.new ≡ tokens.old ++ body_tokens (seen_body body.now)) }
{
    push_word(alloc, b"pre", tokens)?;
    push_block(alloc, body.pre.as_slice(), tokens)?;
    push_word(alloc, b"test", tokens)?;
    push_expr(alloc, &body.test, tokens)?;
    push_word(alloc, b"post", tokens)?;
    push_block(alloc, body.post.as_slice(), tokens)?;
    Ok(())
}

impl Printed for Property {
    ghost spelling = { property_tokens };

    fn print(&self, alloc: Global, tokens: &mut Items<Token>) -> Result<(), Memory> {
        begin(alloc, b"property", &self.name, tokens)?;
        push_kind(alloc, self.kind, tokens)?;
        push_mark(Mark::Semicolon, tokens)?;
        Ok(())
    }
}

/// The name of an operator's input view.
impl Printed for Symbol {
    ghost spelling = { text.name };

    fn print(&self, alloc: Global, tokens: &mut Items<Token>) -> Result<(), Memory> {
        push_name(alloc, self, tokens)
    }
}

impl Printed for Operator {
    ghost spelling = { λ o. operator_tokens (seen_operator o) };

    fn print(&self, alloc: Global, tokens: &mut Items<Token>) -> Result<(), Memory> {
        begin(alloc, b"operator", &self.name, tokens)?;
        push_mark(Mark::OpenParen, tokens)?;
        push_listed(alloc, self.views.as_slice(), tokens)?;
        close_side(alloc, &self.own, tokens)?;
        push_block(alloc, self.init.as_slice(), tokens)?;
        Ok(())
    }
}

impl Printed for Algorithm {
    ghost spelling = { algorithm_tokens };

    fn print(&self, alloc: Global, tokens: &mut Items<Token>) -> Result<(), Memory> {
        begin(alloc, b"algorithm", &self.name, tokens)?;
        push_mark(Mark::Slash, tokens)?;
        push_number(self.arity, tokens)?;
        push_mark(Mark::Semicolon, tokens)?;
        Ok(())
    }
}

impl Printed for Param {
    ghost spelling = { param_tokens };

    fn print(&self, alloc: Global, tokens: &mut Items<Token>) -> Result<(), Memory> {
        push_name(alloc, &self.name, tokens)?;
        push_kind(alloc, self.kind, tokens)?;
        Ok(())
    }
}

/// `) : result = body;`
fn push_result(
    alloc: Global,
    result_kind: Kind,
    body: &Expr,
    tokens: &mut Items<Token>,
) -> Result<(), Memory>
    ensures { OnOk result (tokens.new ≡ tokens.old ++ (text.m Mark.CloseParen ++ (text.m Mark.Colon ++ text.name (text.kind_name result_kind)) ++ text.m Mark.Assign ++ text.expr_tokens (seen_expr body.now) ++ text.m Mark.Semicolon)) }
{
    push_mark(Mark::CloseParen, tokens)?;
    push_kind(alloc, result_kind, tokens)?;
    push_mark(Mark::Assign, tokens)?;
    push_expr(alloc, body, tokens)?;
    push_mark(Mark::Semicolon, tokens)?;
    Ok(())
}

impl Printed for Helper {
    ghost spelling = { λ h. helper_tokens (seen_helper h) };

    fn print(&self, alloc: Global, tokens: &mut Items<Token>) -> Result<(), Memory> {
        begin(alloc, b"helper", &self.name, tokens)?;
        push_mark(Mark::OpenParen, tokens)?;
        push_listed(alloc, self.params.as_slice(), tokens)?;
        push_result(alloc, self.result, &self.body, tokens)?;
        Ok(())
    }
}
