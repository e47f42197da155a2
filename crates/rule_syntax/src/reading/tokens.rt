// The readers of one token. Each stops at the first token that does not fit.
ghost use Rattle.std.specs.Prelude.{◌≡◌, true};
ghost use Rattle.std.specs.Str.{bytes_eq};
ghost use Rattle.pr_value.specs.Symbols as symbols;
ghost use Rattle.rule_syntax.specs.Reading as reading;
ghost use Rattle.rule_syntax.specs.Reading.{Finds, Gives, mark_at, word_at, name_at, number_at, quoted_at, kind_at, binop_at, begins, marked};
ghost use Rattle.rule_ast.specs.Spelled as spelled;

use crate::reading::stop::Stop;
use pr_value::{CAP, Kind, Mark, Symbol, Token};
use rule_ast::{BinOp, FoldKind};
use std::alloc::Global;

/// Whether the symbol is this word.
pub fn is(s: &Symbol, word: &[u8]) -> bool
    ensures { result ≡ bytes_eq s.now word.now }
{
    s.as_slice() == word
}

/// That it is one.
pub fn known(s: &Symbol)
    ensures { symbols.is_symbol s.now ≡ true }
{
    s.as_slice();
}

/// Whether it is a name, as every symbol but `-` is.
fn is_name(s: &Symbol) -> bool
    ensures { result ≡ symbols.is_name s.now }
{
    s.as_slice() != b"-".as_slice()
}

fn is_reserved(s: &Symbol) -> bool
    ensures { result ≡ spelled.is_reserved s.now }
{
    is(s, b"property")
        || is(s, b"operator")
        || is(s, b"algorithm")
        || is(s, b"helper")
        || is(s, b"trule")
        || is(s, b"irule")
        || is(s, b"pre")
        || is(s, b"test")
        || is(s, b"post")
        || is(s, b"file")
        || is(s, b"Null")
        || is(s, b"true")
        || is(s, b"false")
        || is(s, b"in")
        || is(s, b"sum")
        || is(s, b"product")
        || is(s, b"any")
        || is(s, b"all")
        || is(s, b"keep")
}

/// Whether it is a name that is not reserved.
#[tactic(auto, unfolding(rule_ast::specs::Spelled::is_free))]
pub fn is_free(s: &Symbol) -> bool
    ensures { result ≡ spelled.is_free s.now }
{
    is_name(s) && !is_reserved(s)
}

fn same_mark(a: Mark, b: Mark) -> bool
    ensures { result ≡ reading.same_mark a b }
{
    a == b
}

/// What stands behind the mark, where it comes next.
pub fn after(wanted: Mark, ts: &[Token]) -> Option<&[Token]>
    ensures { Finds (λ x. x.now) result (mark_at wanted ts.now) }
{
    match ts {
        [Token::Mark(found), rest @ ..] => {
            if !same_mark(*found, wanted) {
                return None;
            }
            Some(rest)
        }
        _ => None,
    }
}

/// What stands behind the mark, which has to come next.
pub fn mark(wanted: Mark, ts: &[Token]) -> Result<&[Token], Stop>
    ensures { Gives (λ x. x.now) result (mark_at wanted ts.now) }
{
    match after(wanted, ts) {
        Some(rest) => Ok(rest),
        None => Err(Stop::Bad { left: ts.len() }),
    }
}

/// Whether the mark comes next.
pub fn next_is_mark(wanted: Mark, ts: &[Token]) -> bool
    ensures { result ≡ marked wanted ts.now }
{
    match ts {
        [Token::Mark(found), ..] => same_mark(*found, wanted),
        _ => false,
    }
}

/// Whether the word comes next.
pub fn next_is(wanted: &[u8], ts: &[Token]) -> bool
    ensures { result ≡ begins wanted.now ts.now }
{
    match ts {
        [Token::Name(found), ..] => is(found, wanted),
        _ => false,
    }
}

/// What stands behind the word, where it comes next.
pub fn after_word<'a>(wanted: &[u8], ts: &'a [Token]) -> Option<&'a [Token]>
    ensures { Finds (λ x. x.now) result (word_at wanted.now ts.now) }
{
    match ts {
        [Token::Name(found), rest @ ..] => {
            if !is(found, wanted) {
                return None;
            }
            Some(rest)
        }
        _ => None,
    }
}

/// What stands behind the word, which has to come next.
pub fn word<'a>(wanted: &[u8], ts: &'a [Token]) -> Result<&'a [Token], Stop>
    ensures { Gives (λ x. x.now) result (word_at wanted.now ts.now) }
{
    match after_word(wanted, ts) {
        Some(rest) => Ok(rest),
        None => Err(Stop::Bad { left: ts.len() }),
    }
}

/// A name that is not reserved.
pub fn name(alloc: Global, ts: &[Token]) -> Result<(Symbol, &[Token]), Stop>
    ensures { Gives (λ x. (x.0, x.1.now)) result (name_at ts.now) }
{
    match ts {
        [Token::Name(found), rest @ ..] => {
            if !is_free(found) {
                return Err(Stop::Bad { left: ts.len() });
            }
            Ok((found.copy(alloc)?, rest))
        }
        _ => Err(Stop::Bad { left: ts.len() }),
    }
}

/// A number of at most `CAP`.
pub fn number(ts: &[Token]) -> Result<(u64, &[Token]), Stop>
    ensures { Gives (λ x. (x.0, x.1.now)) result (number_at ts.now) }
{
    match ts {
        [Token::Number(found), rest @ ..] => {
            if *found > CAP {
                return Err(Stop::Bad { left: ts.len() });
            }
            Ok((*found, rest))
        }
        _ => Err(Stop::Bad { left: ts.len() }),
    }
}

/// A symbol behind a quote.
pub fn quoted(alloc: Global, ts: &[Token]) -> Result<(Symbol, &[Token]), Stop>
    ensures { Gives (λ x. (x.0, x.1.now)) result (quoted_at ts.now) }
{
    match ts {
        [Token::Quoted(found), rest @ ..] => {
            known(found);
            Ok((found.copy(alloc)?, rest))
        }
        _ => Err(Stop::Bad { left: ts.len() }),
    }
}

fn kind_of(s: &Symbol) -> Option<Kind>
    ensures { result ≡ reading.kind_of s.now }
{
    if is(s, b"num") {
        return Some(Kind::Num);
    }
    if is(s, b"truth") {
        return Some(Kind::Truth);
    }
    if is(s, b"symbol") {
        return Some(Kind::Symbol);
    }
    if is(s, b"set") {
        return Some(Kind::Set);
    }
    if is(s, b"list") {
        return Some(Kind::List);
    }
    if is(s, b"cost") {
        return Some(Kind::Cost);
    }
    None
}

/// The name of a kind.
pub fn kind(ts: &[Token]) -> Result<(Kind, &[Token]), Stop>
    ensures { Gives (λ x. (x.0, x.1.now)) result (kind_at ts.now) }
{
    match ts {
        [Token::Name(found), rest @ ..] => match kind_of(found) {
            Some(kind) => Ok((kind, rest)),
            None => Err(Stop::Bad { left: ts.len() }),
        },
        _ => Err(Stop::Bad { left: ts.len() }),
    }
}

/// The truth value that the name spells.
pub fn truth_of(s: &Symbol) -> Option<bool>
    ensures { result ≡ reading.truth_of s.now }
{
    if is(s, b"true") {
        return Some(true);
    }
    if is(s, b"false") {
        return Some(false);
    }
    None
}

/// The fold that the name spells.
pub fn fold_of(s: &Symbol) -> Option<FoldKind>
    ensures { result ≡ reading.fold_of s.now }
{
    if is(s, b"sum") {
        return Some(FoldKind::Sum);
    }
    if is(s, b"product") {
        return Some(FoldKind::Product);
    }
    if is(s, b"any") {
        return Some(FoldKind::Any);
    }
    if is(s, b"all") {
        return Some(FoldKind::All);
    }
    if is(s, b"keep") {
        return Some(FoldKind::Keep);
    }
    None
}

fn binop_of(found: Mark) -> Option<BinOp>
    ensures { result ≡ reading.binop_of found }
{
    match found {
        Mark::Plus => Some(BinOp::Add),
        Mark::Minus => Some(BinOp::Sub),
        Mark::Times => Some(BinOp::Mul),
        Mark::Slash => Some(BinOp::Div),
        Mark::Equal => Some(BinOp::Equal),
        Mark::NotEqual => Some(BinOp::NotEqual),
        Mark::Less => Some(BinOp::Less),
        Mark::LessEqual => Some(BinOp::LessEqual),
        Mark::Greater => Some(BinOp::Greater),
        Mark::GreaterEqual => Some(BinOp::GreaterEqual),
        Mark::AndAnd => Some(BinOp::And),
        Mark::OrOr => Some(BinOp::Or),
        _ => None,
    }
}

/// The operator between two expressions.
pub fn binop(ts: &[Token]) -> Result<(BinOp, &[Token]), Stop>
    ensures { Gives (λ x. (x.0, x.1.now)) result (binop_at ts.now) }
{
    match ts {
        [Token::Mark(found), rest @ ..] => match binop_of(*found) {
            Some(op) => Ok((op, rest)),
            None => Err(Stop::Bad { left: ts.len() }),
        },
        _ => Err(Stop::Bad { left: ts.len() }),
    }
}
