ghost use Rattle.std.specs.Prelude.{◌≡◌, ◌≢◌, ℕ, List, Err, length, IfOk, IfErr};
ghost use Rattle.pr_value.specs.declared.token.Token.{Token as AnyToken};
ghost use Rattle.rule_lex.specs.Lexes.{Lexes, Refuses};
ghost use Rattle.rule_lex.specs.declared.error.LexError.TheVariants as error;

use crate::classes::next_token;
use crate::error::LexError;
use crate::gap::after_gap;
use pr_value::{Memory, Tokens};
use std::alloc::Global;

impl From<Memory> for LexError {
    ghost from_gives = { λ _ e. e ≡ error.Memory };

    fn from(_error: Memory) -> LexError {
        LexError::Memory
    }
}

/// The tokens of a text, each with its offset. Blanks and comments may stand between tokens, and
/// each token is the longest that begins at its place.
pub fn tokens(alloc: Global, text: &[u8]) -> Result<Tokens, LexError>
    ensures ok { IfOk result (λ ts. Lexes text.now ts.placed × (ts.end ≡ length text.now)) }
    ensures only { IfOk result (λ ts. (us : List (AnyToken × ℕ)) → Lexes text.now us → us ≡ ts.placed) }
    ensures refused { IfErr result (λ e. e ≢ LexError.Memory → Refuses text.now e) }
    ensures none { IfErr result (λ e. e ≢ LexError.Memory → (us : List (AnyToken × ℕ)) → Lexes text.now us → ⊥) }
{
    let mut out = Tokens::new(alloc, text.len());
    let mut rest = after_gap(text);
    while !rest.is_empty() {
        let place = text.len() - rest.len();
        let (token, after) = next_token(alloc, rest, place)?;
        out.push(token, place)?;
        rest = after_gap(after);
    }
    Ok(out)
}
