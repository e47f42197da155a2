// The reader of a query.
ghost use Rattle.std.specs.Prelude.{◌≡◌, ◌≢◌, IfOk, IfErr, true, length, map};
ghost use Rattle.pr_value.specs.Placed.{tokens_in};
ghost use Rattle.rule_syntax.specs.Levels.{IsQuery};
ghost use Rattle.rule_syntax.specs.Places.{IsAtPlace};
ghost use Rattle.rule_syntax.specs.Reading.{Gives, filled_at, listed_at};
ghost use Rattle.rule_syntax.specs.ReadingQuery as reading;
ghost use Rattle.rule_ast.specs.Seen.{seen_query};
ghost use Rattle.rule_ast.specs.Spelled.{spells_query};
ghost use Rattle.rule_ast.specs.Syntax as syntax;

use crate::error::SyntaxError;
use crate::reading::settings::optional_settings;
use crate::reading::stop::{Stop, refusal};
use crate::reading::tokens::{after, is, is_free, mark, name, next_is, word};
use pr_value::{Items, Mark, Token, Tokens};
use rule_ast::QueryText;
use std::alloc::Global;

/// The levels that a query may have.
const LEVELS: u64 = 256;

/// The query with these tokens.
pub fn read_query(alloc: Global, tokens: &Tokens) -> Result<QueryText, SyntaxError>
    ensures found { IfOk result (λ q. IsQuery (seen_query q) (tokens_in tokens.now)) }
    ensures spelled { IfOk result (λ q. spells_query (seen_query q) ≡ true) }
    ensures only { IfOk result (λ q. (s : syntax.Query) → IsQuery s (tokens_in tokens.now) → s ≡ seen_query q) }
    ensures refused { IfErr result (λ e. e ≢ SyntaxError.Memory → (s : syntax.Query) → IsQuery s (tokens_in tokens.now) → ⊥) }
    ensures place { IfErr result (IsAtPlace tokens.now.placed tokens.now.end) }
{
    match whole(alloc, tokens.as_slice()) {
        Ok(query) => Ok(query),
        Err(stop) => Err(refusal(tokens, stop)),
    }
}

/// A query and nothing behind it.
fn whole(alloc: Global, ts: &[Token]) -> Result<QueryText, Stop>
    ensures { Gives seen_query result (reading.whole_query_at ts.now) }
{
    let (found, rest) = query(alloc, LEVELS, ts)?;
    if !rest.is_empty() {
        return Err(Stop::Bad { left: rest.len() });
    }
    Ok(found)
}

/// Where no level is left: too deep where another query would begin.
fn past_last(ts: &[Token]) -> Stop
    ensures { result ≢ Stop.Memory }
{
    match ts {
        [Token::Name(found), ..] => {
            if !is(found, b"file") && !is_free(found) {
                return Stop::Bad { left: ts.len() };
            }
            Stop::Deep { left: ts.len() }
        }
        _ => Stop::Bad { left: ts.len() },
    }
}

/// A query of at most so many levels.
#[cycle(query)]
#[tactic(auto, using(crate::proofs::QueryLaws::query_levels_lemmas))]
fn query(alloc: Global, levels: u64, ts: &[Token]) -> Result<(QueryText, &[Token]), Stop>
    ensures { Gives (λ x. (seen_query x.0, x.1.now)) result (reading.query_at levels ts.now) }
{
    if levels == 0 {
        return Err(past_last(ts));
    }
    level(alloc, levels - 1, ts)
}

/// A query with inputs of at most so many levels.
#[cycle(query)]
#[tactic(auto, unfolding(crate::specs::ReadingQuery::query_level_at))]
fn level(alloc: Global, levels: u64, ts: &[Token]) -> Result<(QueryText, &[Token]), Stop>
    ensures { Gives (λ x. (seen_query x.0, x.1.now)) result (reading.query_level_at (reading.query_at levels) ts.now) }
{
    if next_is(b"file", ts) {
        return file(alloc, ts);
    }
    operator(alloc, levels, ts)
}

/// `file name`
#[tactic(auto, unfolding(crate::specs::ReadingQuery::file_at))]
fn file(alloc: Global, ts: &[Token]) -> Result<(QueryText, &[Token]), Stop>
    ensures { Gives (λ x. (seen_query x.0, x.1.now)) result (reading.file_at ts.now) }
{
    let rest = word(b"file", ts)?;
    let (found, rest) = name(alloc, rest)?;
    Ok((QueryText::File(found), rest))
}

/// An operator, its settings and inputs of at most so many levels.
#[cycle(query)]
#[tactic(auto, unfolding(crate::specs::ReadingQuery::operator_at))]
fn operator(alloc: Global, levels: u64, ts: &[Token]) -> Result<(QueryText, &[Token]), Stop>
    ensures { Gives (λ x. (seen_query x.0, x.1.now)) result (reading.operator_at (reading.query_at levels) ts.now) }
{
    let (op, rest) = name(alloc, ts)?;
    let (settings, rest) = optional_settings(alloc, rest)?;
    let rest = mark(Mark::OpenParen, rest)?;
    let (inputs, rest) = filled_queries(alloc, levels, rest)?;
    Ok((
        QueryText::Node {
            op,
            settings,
            inputs,
        },
        rest,
    ))
}

/// Queries up to the closing parenthesis.
#[cycle(query)]
#[tactic(auto, unfolding(crate::specs::Reading::filled_at))]
fn filled_queries(
    alloc: Global,
    levels: u64,
    ts: &[Token],
) -> Result<(Items<QueryText>, &[Token]), Stop>
    ensures { Gives (λ x. (map seen_query x.0, x.1.now)) result (filled_at (reading.query_at levels) Mark.CloseParen ts.now) }
{
    let (queries, rest) = listed_queries(alloc, levels, ts)?;
    let rest = mark(Mark::CloseParen, rest)?;
    Ok((queries, rest))
}

/// One query or more, with commas between.
#[cycle(query)]
fn listed_queries(
    alloc: Global,
    levels: u64,
    ts: &[Token],
) -> Result<(Items<QueryText>, &[Token]), Stop>
    ensures { Gives (λ x. (map seen_query x.0, x.1.now)) result (listed_at (reading.query_at levels) (length ts.now) ts.now) }
{
    let mut out = Items::new(alloc);
    let mut rest = ts;
    let mut left = ts.len();
    while left > 0 {
        left -= 1;
        let (x, behind) = query(alloc, levels, rest)?;
        out.push(x)?;
        match after(Mark::Comma, behind) {
            Some(more) => rest = more,
            None => return Ok((out, behind)),
        }
    }
    Err(Stop::Bad { left: rest.len() })
}
