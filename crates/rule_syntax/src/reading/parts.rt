// The readers of statements and declarations.
ghost use Rattle.std.specs.Prelude.{◌≡◌, [], ◌∷◌, map, refl};
ghost use Rattle.std.proofs.lemmas.List.{map-append};
ghost use Rattle.rule_syntax.specs.Levels.{most_levels};
ghost use Rattle.rule_syntax.specs.Reading as lists;
ghost use Rattle.rule_syntax.specs.Reading.{Gives};
ghost use Rattle.rule_syntax.specs.ReadingParts as reading;
ghost use Rattle.rule_ast.specs.Seen.{seen_expr, seen_stmt, seen_body, seen_operator, seen_helper};
ghost use Rattle.rule_ast.specs.Syntax as syntax;

use crate::reading::expr::{LEVELS, expr};
use crate::reading::lists::{Parts, closed, filled};
use crate::reading::stop::Stop;
use crate::reading::tokens::{kind, mark, name, next_is_mark, number, word};
use pr_value::{Items, Mark, Property, Symbol, Token};
use rule_ast::{Algorithm, Body, Expr, Helper, Operator, Param, Stmt};
use std::alloc::Global;

fn stmt(alloc: Global, ts: &[Token]) -> Result<(Stmt, &[Token]), Stop>
    ensures { Gives (λ x. (seen_stmt x.0, x.1.now)) result (reading.stmt_at most_levels ts.now) }
{
    let (desc, rest) = name(alloc, ts)?;
    changed(alloc, desc, rest)
}

/// What stands behind the name of the descriptor that is changed.
#[tactic(auto, unfolding(crate::specs::ReadingParts::changed_at))]
fn changed(alloc: Global, desc: Symbol, ts: &[Token]) -> Result<(Stmt, &[Token]), Stop>
    ensures { Gives (λ x. (seen_stmt x.0, x.1.now)) result (reading.changed_at most_levels desc ts.now) }
{
    match ts {
        [Token::Mark(Mark::Dot), rest @ ..] => {
            let (property, rest) = name(alloc, rest)?;
            let (value, rest) = assigned(alloc, rest)?;
            Ok((
                Stmt::Set {
                    desc,
                    property,
                    value,
                },
                rest,
            ))
        }
        [Token::Mark(Mark::Assign), rest @ ..] => {
            let (from, rest) = name(alloc, rest)?;
            let rest = mark(Mark::Semicolon, rest)?;
            Ok((Stmt::Copy { to: desc, from }, rest))
        }
        _ => Err(Stop::Bad { left: ts.len() }),
    }
}

/// What is assigned: `= expr;`
#[tactic(auto, unfolding(crate::specs::ReadingParts::assigned_at))]
fn assigned(alloc: Global, ts: &[Token]) -> Result<(Expr, &[Token]), Stop>
    ensures { Gives (λ x. (seen_expr x.0, x.1.now)) result (reading.assigned_at most_levels ts.now) }
{
    let rest = mark(Mark::Assign, ts)?;
    let (value, rest) = expr(alloc, LEVELS, rest)?;
    let rest = mark(Mark::Semicolon, rest)?;
    Ok((value, rest))
}

/// Statements up to a closing brace.
fn stmts(alloc: Global, ts: &[Token]) -> Result<(Items<Stmt>, &[Token]), Stop>
    ensures { Gives (λ x. (map seen_stmt x.0, x.1.now)) result (reading.stmts_at most_levels ts.now) }
{
    let mut out = Items::new(alloc);
    let mut rest = ts;
    let mut left = ts.len();
    while !next_is_mark(Mark::CloseBrace, rest) {
        if left == 0 {
            return Err(Stop::Bad { left: rest.len() });
        }
        left -= 1;
        let (s, behind) = stmt(alloc, rest)?;
        out.push(s)?;
        rest = behind;
    }
    Ok((out, rest))
}

#[tactic(auto, unfolding(crate::specs::ReadingParts::block_at))]
fn block(alloc: Global, ts: &[Token]) -> Result<(Items<Stmt>, &[Token]), Stop>
    ensures { Gives (λ x. (map seen_stmt x.0, x.1.now)) result (reading.block_at most_levels ts.now) }
{
    let rest = mark(Mark::OpenBrace, ts)?;
    let (members, rest) = stmts(alloc, rest)?;
    let rest = mark(Mark::CloseBrace, rest)?;
    Ok((members, rest))
}

/// The parts of a rule behind its sides.
pub fn body(alloc: Global, ts: &[Token]) -> Result<(Body, &[Token]), Stop>
    ensures { Gives (λ x. (seen_body x.0, x.1.now)) result (reading.body_at most_levels ts.now) }
{
    let rest = word(b"pre", ts)?;
    let (pre, rest) = block(alloc, rest)?;
    let rest = word(b"test", rest)?;
    let (test, rest) = expr(alloc, LEVELS, rest)?;
    let rest = word(b"post", rest)?;
    let (post, rest) = block(alloc, rest)?;
    Ok((Body { pre, test, post }, rest))
}

/// `property name : kind;`
pub struct Properties;

impl Parts for Properties {
    ghost use Rattle.pr_value.specs.declared.property.Property.{Property};

    type Part = Property;

    ghost Seen = { Property };

    ghost seen = { λ x. x };

    ghost all_seen = { λ xs. xs };

    ghost reads = { reading.property_at };

    fn read(alloc: Global, ts: &[Token]) -> Result<(Property, &[Token]), Stop> {
        let rest = word(b"property", ts)?;
        let (name, rest) = name(alloc, rest)?;
        let rest = mark(Mark::Colon, rest)?;
        let (kind, rest) = kind(rest)?;
        let rest = mark(Mark::Semicolon, rest)?;
        Ok((Property { name, kind }, rest))
    }

    ghost none = { refl };

    ghost one_more = { λ xs x. refl };
}

/// The names of the input views.
struct Names;

impl Parts for Names {
    ghost use Rattle.pr_value.specs.Symbols.{Symbol};

    type Part = Symbol;

    ghost Seen = { Symbol };

    ghost seen = { λ x. x };

    ghost all_seen = { λ xs. xs };

    ghost reads = { lists.name_at };

    fn read(alloc: Global, ts: &[Token]) -> Result<(Symbol, &[Token]), Stop> {
        name(alloc, ts)
    }

    ghost none = { refl };

    ghost one_more = { λ xs x. refl };
}

/// `operator name(views) : own { init }`
pub struct Operators;

impl Parts for Operators {
    type Part = Operator;

    ghost Seen = { syntax.Operator };

    ghost seen = { seen_operator };

    ghost all_seen = { map seen_operator };

    ghost reads = { reading.operator_at most_levels };

    fn read(alloc: Global, ts: &[Token]) -> Result<(Operator, &[Token]), Stop> {
        let rest = word(b"operator", ts)?;
        let (op, rest) = name(alloc, rest)?;
        let rest = mark(Mark::OpenParen, rest)?;
        let (views, rest) = filled::<Names>(alloc, Mark::CloseParen, rest)?;
        let rest = mark(Mark::Colon, rest)?;
        let (own, rest) = name(alloc, rest)?;
        let (init, rest) = block(alloc, rest)?;
        Ok((
            Operator {
                name: op,
                views,
                own,
                init,
            },
            rest,
        ))
    }

    ghost none = { refl };

    ghost one_more = { λ xs x. map-append seen_operator xs (x ∷ []) };
}

/// `algorithm name / arity;`
pub struct Algorithms;

impl Parts for Algorithms {
    ghost use Rattle.rule_ast.specs.declared.parts.Algorithm.{Algorithm};

    type Part = Algorithm;

    ghost Seen = { Algorithm };

    ghost seen = { λ x. x };

    ghost all_seen = { λ xs. xs };

    ghost reads = { reading.algorithm_at };

    fn read(alloc: Global, ts: &[Token]) -> Result<(Algorithm, &[Token]), Stop> {
        let rest = word(b"algorithm", ts)?;
        let (name, rest) = name(alloc, rest)?;
        let rest = mark(Mark::Slash, rest)?;
        let (arity, rest) = number(rest)?;
        let rest = mark(Mark::Semicolon, rest)?;
        Ok((Algorithm { name, arity }, rest))
    }

    ghost none = { refl };

    ghost one_more = { λ xs x. refl };
}

/// `name : kind`
struct Params;

impl Parts for Params {
    ghost use Rattle.rule_ast.specs.declared.parts.Param.{Param};

    type Part = Param;

    ghost Seen = { Param };

    ghost seen = { λ x. x };

    ghost all_seen = { λ xs. xs };

    ghost reads = { reading.param_at };

    fn read(alloc: Global, ts: &[Token]) -> Result<(Param, &[Token]), Stop> {
        let (name, rest) = name(alloc, ts)?;
        let rest = mark(Mark::Colon, rest)?;
        let (kind, rest) = kind(rest)?;
        Ok((Param { name, kind }, rest))
    }

    ghost none = { refl };

    ghost one_more = { λ xs x. refl };
}

/// A helper's name and parameters: `name(params)`
#[tactic(auto, unfolding(crate::specs::ReadingParts::signature_at))]
fn signature(alloc: Global, ts: &[Token]) -> Result<((Symbol, Items<Param>), &[Token]), Stop>
    ensures { Gives (λ x. ((x.0.0, x.0.1), x.1.now)) result (reading.signature_at ts.now) }
{
    let (name, rest) = name(alloc, ts)?;
    let rest = mark(Mark::OpenParen, rest)?;
    let (params, rest) = closed::<Params>(alloc, Mark::CloseParen, rest)?;
    Ok(((name, params), rest))
}

/// `helper name(params) : result = body;`
pub struct Helpers;

impl Parts for Helpers {
    type Part = Helper;

    ghost Seen = { syntax.Helper };

    ghost seen = { seen_helper };

    ghost all_seen = { map seen_helper };

    ghost reads = { reading.helper_at most_levels };

    fn read(alloc: Global, ts: &[Token]) -> Result<(Helper, &[Token]), Stop> {
        let rest = word(b"helper", ts)?;
        let ((name, params), rest) = signature(alloc, rest)?;
        let rest = mark(Mark::Colon, rest)?;
        let (result, rest) = kind(rest)?;
        let (body, rest) = assigned(alloc, rest)?;
        Ok((
            Helper {
                name,
                params,
                result,
                body,
            },
            rest,
        ))
    }

    ghost none = { refl };

    ghost one_more = { λ xs x. map-append seen_helper xs (x ∷ []) };
}
