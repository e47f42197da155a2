ghost use Rattle.std.specs.Prelude.{◌≡◌, ◌++◌, ◌∷◌, [], MatchOption};
ghost use Rattle.pr_value.specs.TokenTexts.{mark_text};
ghost use Rattle.rule_lex.specs.Steps.{NoMark, NoPair, IsPairAt};

use pr_value::Mark;

fn pair_of(first: u8, second: u8) -> Option<Mark>
    ensures { MatchOption result (NoMark (first ∷ second ∷ [])) (λ m. mark_text m ≡ first ∷ second ∷ []) }
{
    match (first, second) {
        (b'=', b'>') => Some(Mark::Arrow),
        (b'=', b'=') => Some(Mark::Equal),
        (b'!', b'=') => Some(Mark::NotEqual),
        (b'<', b'=') => Some(Mark::LessEqual),
        (b'>', b'=') => Some(Mark::GreaterEqual),
        (b'&', b'&') => Some(Mark::AndAnd),
        (b'|', b'|') => Some(Mark::OrOr),
        _ => None,
    }
}

/// The mark of one byte, where there is one.
pub fn mark_of(b: u8) -> Option<Mark>
    ensures { MatchOption result (NoMark (b ∷ [])) (λ m. mark_text m ≡ b ∷ []) }
{
    match b {
        b'{' => Some(Mark::OpenBrace),
        b'}' => Some(Mark::CloseBrace),
        b'[' => Some(Mark::OpenBracket),
        b']' => Some(Mark::CloseBracket),
        b'(' => Some(Mark::OpenParen),
        b')' => Some(Mark::CloseParen),
        b',' => Some(Mark::Comma),
        b';' => Some(Mark::Semicolon),
        b':' => Some(Mark::Colon),
        b'.' => Some(Mark::Dot),
        b'?' => Some(Mark::Question),
        b'=' => Some(Mark::Assign),
        b'<' => Some(Mark::Less),
        b'>' => Some(Mark::Greater),
        b'+' => Some(Mark::Plus),
        b'-' => Some(Mark::Minus),
        b'*' => Some(Mark::Times),
        b'/' => Some(Mark::Slash),
        _ => None,
    }
}

/// The mark of two bytes at the start of the text, of which the first is apart, and what stands
/// behind it.
pub fn pair_at(first: u8, after: &[u8]) -> Option<(Mark, &[u8])>
    ensures { MatchOption result (NoPair first after.now) (λ p. IsPairAt first after.now p.0 p.1.now) }
{
    let (second, rest) = after.split_first()?;
    let mark = pair_of(first, *second)?;
    Some((mark, rest))
}
