ghost use Rattle.std.specs.Prelude.{◌≡◌, ◌++◌, OnOk, OnErr};
ghost use Rattle.pr_value.specs.TokenTexts.{mark_text, token_text};

use crate::memory::Memory;
use crate::printing::{push_number, push_quoted};
use crate::text::Text;
use crate::token::{Mark, Token};
use std::alloc::Global;

fn text_of_mark(mark: Mark) -> &'static [u8]
    ensures { result.now ≡ mark_text mark }
{
    match mark {
        Mark::OpenBrace => b"{",
        Mark::CloseBrace => b"}",
        Mark::OpenBracket => b"[",
        Mark::CloseBracket => b"]",
        Mark::OpenParen => b"(",
        Mark::CloseParen => b")",
        Mark::Comma => b",",
        Mark::Semicolon => b";",
        Mark::Colon => b":",
        Mark::Dot => b".",
        Mark::Question => b"?",
        Mark::Assign => b"=",
        Mark::Arrow => b"=>",
        Mark::Equal => b"==",
        Mark::NotEqual => b"!=",
        Mark::Less => b"<",
        Mark::LessEqual => b"<=",
        Mark::Greater => b">",
        Mark::GreaterEqual => b">=",
        Mark::Plus => b"+",
        Mark::Minus => b"-",
        Mark::Times => b"*",
        Mark::Slash => b"/",
        Mark::AndAnd => b"&&",
        Mark::OrOr => b"||",
    }
}

/// Appends the token's text: a name's bytes, a number's decimal digits, a quote and a symbol's
/// bytes, or a mark's text. The text is unchanged after an error.
pub fn push_token(alloc: Global, token: &Token, out: &mut Text) -> Result<(), Memory>
    ensures ok { OnOk result (out.new ≡ out.old ++ token_text token.now) }
    ensures err { OnErr result (out.new ≡ out.old) }
{
    match token {
        Token::Name(name) => out.push_bytes(name.as_slice()),
        Token::Number(n) => push_number(alloc, *n, out),
        Token::Quoted(symbol) => push_quoted(alloc, symbol, out),
        Token::Mark(mark) => out.push_bytes(text_of_mark(*mark)),
    }
}
