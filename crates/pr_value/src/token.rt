use crate::symbol::Symbol;

/// The marks of rule and query texts.
#[derive(Clone, Copy, PartialEq, Eq)]
pub enum Mark {
    OpenBrace,
    CloseBrace,
    OpenBracket,
    CloseBracket,
    OpenParen,
    CloseParen,
    Comma,
    Semicolon,
    Colon,
    Dot,
    Question,
    Assign,
    Arrow,
    Equal,
    NotEqual,
    Less,
    LessEqual,
    Greater,
    GreaterEqual,
    Plus,
    Minus,
    Times,
    Slash,
    AndAnd,
    OrOr,
}

/// A token of a rule or query text: a name, a number of at most `CAP`, a symbol behind a quote, or
/// a mark.
#[derive(PartialEq, Eq, Drop)]
pub enum Token {
    Name(Symbol),
    Number(u64),
    Quoted(Symbol),
    Mark(Mark),
}
