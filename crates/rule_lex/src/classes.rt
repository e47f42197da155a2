ghost use Rattle.std.specs.Prelude.{◌≡◌, ◌≢◌, ◌+◌, ◌^◌, ◌<◌, ◌≤◌, [], ◌∷◌, true, length, IfOk, IfErr, MatchOption};
ghost use Rattle.pr_value.specs.Symbols as symbols;
ghost use Rattle.pr_value.specs.TokenTexts.{quote};
ghost use Rattle.rule_lex.specs.Lexemes.{longest_name};
ghost use Rattle.rule_lex.specs.Lexes.{IsFault};
ghost use Rattle.rule_lex.specs.Runs.{begins};
ghost use Rattle.rule_lex.specs.Steps.{Begins, BeginsSymbol, NoSymbol, is_quotable, is_other};

use crate::error::LexError;
use crate::marks::{mark_of, pair_at};
use crate::runs::{digits_at, value_of, word_at};
use pr_value::{Symbol, SymbolError, Token, is_digit, is_letter};
use std::alloc::Global;

const LONGEST_NAME: usize = 64;

fn symbol_of(alloc: Global, word: &[u8], place: usize) -> Result<Symbol, LexError>
    requires { is_quotable word.now ≡ true }
    ensures same { IfOk result (λ s. (s ≡ word.now) × (length word.now ≤ longest_name)) }
    ensures long { IfErr result (λ e. e ≢ LexError.Memory → (e ≡ LexError.NameTooLong place) × (longest_name < length word.now)) }
{
    if word.len() > LONGEST_NAME {
        return Err(LexError::NameTooLong { at: place });
    }
    match Symbol::new(alloc, word) {
        Ok(symbol) => Ok(symbol),
        Err(SymbolError::NotASymbol) => unreachable!(),
        Err(SymbolError::Memory) => Err(LexError::Memory),
    }
}

fn name_token(alloc: Global, text: &[u8], place: usize) -> Result<(Token, &[u8]), LexError>
    requires { begins symbols.is_letter text.now ≡ true }
    ensures token { IfOk result (λ x. Begins text.now x.0 x.1.now) }
    ensures fault { IfErr result (λ e. e ≢ LexError.Memory → IsFault text.now place e) }
{
    let (word, rest) = word_at(text);
    let symbol = symbol_of(alloc, word, place)?;
    Ok((Token::Name(symbol), rest))
}

fn number_token(text: &[u8], place: usize) -> Result<(Token, &[u8]), LexError>
    requires { begins symbols.is_digit text.now ≡ true }
    ensures token { IfOk result (λ x. Begins text.now x.0 x.1.now) }
    ensures fault { IfErr result (λ e. IsFault text.now place e) }
{
    let (digits, rest) = digits_at(text);
    match value_of(digits) {
        Some(value) => Ok((Token::Number(value), rest)),
        None => Err(LexError::NumberTooBig { at: place }),
    }
}

fn symbol_at(text: &[u8]) -> Option<(&[u8], &[u8])>
    ensures { MatchOption result (NoSymbol text.now) (λ p. BeginsSymbol text.now p.0.now p.1.now) }
{
    let (first, _) = text.split_first()?;
    if *first == b'-' {
        return Some(text.split_at(1));
    }
    if is_letter(*first) {
        return Some(word_at(text));
    }
    None
}

// The text's first byte, a quote, is apart.
fn quoted_token(alloc: Global, after: &[u8], place: usize) -> Result<(Token, &[u8]), LexError>
    requires { place + length after.now + 1 < 2 ^ 64 }
    ensures token { IfOk result (λ x. Begins (quote ∷ after.now) x.0 x.1.now) }
    ensures fault { IfErr result (λ e. e ≢ LexError.Memory → IsFault (quote ∷ after.now) place e) }
{
    match symbol_at(after) {
        Some((word, rest)) => {
            let symbol = symbol_of(alloc, word, place + 1)?;
            Ok((Token::Quoted(symbol), rest))
        }
        None => Err(LexError::BadByte { at: place }),
    }
}

// The text's first byte is apart.
fn mark_token(first: u8, after: &[u8], place: usize) -> Result<(Token, &[u8]), LexError>
    requires { is_other first ≡ true }
    ensures token { IfOk result (λ x. Begins (first ∷ after.now) x.0 x.1.now) }
    ensures fault { IfErr result (λ e. IsFault (first ∷ after.now) place e) }
{
    if let Some((mark, rest)) = pair_at(first, after) {
        return Ok((Token::Mark(mark), rest));
    }
    match mark_of(first) {
        Some(mark) => Ok((Token::Mark(mark), after)),
        None => Err(LexError::BadByte { at: place }),
    }
}

/// The token at the start of the text, which lies at `place`, and what stands behind it.
pub fn next_token(alloc: Global, text: &[u8], place: usize) -> Result<(Token, &[u8]), LexError>
    requires some { text.now ≢ [] }
    requires fits { place + length text.now < 2 ^ 64 }
    ensures token { IfOk result (λ x. Begins text.now x.0 x.1.now) }
    ensures fault { IfErr result (λ e. e ≢ LexError.Memory → IsFault text.now place e) }
{
    let (first, after) = text.split_first().unwrap();
    if is_letter(*first) {
        name_token(alloc, text, place)
    } else if is_digit(*first) {
        number_token(text, place)
    } else if *first == b'\'' {
        quoted_token(alloc, after, place)
    } else {
        mark_token(*first, after, place)
    }
}
