// Why a reader stopped.
ghost use Rattle.std.specs.Prelude.{◌≡◌, ◌↔◌};
ghost use Rattle.rule_syntax.specs.Places.{IsPlace, IsAtPlace};

use crate::error::SyntaxError;
use pr_value::{Memory, Tokens};
use std::alloc::AllocError;

/// Why a reader stopped. `left` counts the tokens from the one on at which it stopped, and is 0 at
/// the end of the text.
#[derive(Clone, Copy)]
pub enum Stop {
    /// No text of the grammar goes on with this token.
    Bad { left: usize },
    /// A part past the last level begins with this token.
    Deep { left: usize },
    Memory,
}

impl From<AllocError> for Stop {
    ghost use Rattle.std.specs.Prelude.{◌≡◌};
    ghost use Rattle.rule_syntax.specs.declared.reading.stop.Stop.TheVariants as stop;

    ghost from_gives = { λ _ e. e ≡ stop.Memory };

    fn from(_: AllocError) -> Self {
        Stop::Memory
    }
}

impl From<Memory> for Stop {
    ghost use Rattle.std.specs.Prelude.{◌≡◌};
    ghost use Rattle.rule_syntax.specs.declared.reading.stop.Stop.TheVariants as stop;

    ghost from_gives = { λ _ e. e ≡ stop.Memory };

    fn from(_: Memory) -> Self {
        Stop::Memory
    }
}

/// The offset of the token with so many tokens from it on, or the end of the text.
#[tactic(auto, using(crate::proofs::PlaceLaws::token_place, crate::proofs::PlaceLaws::end_place))]
fn place(tokens: &Tokens, left: usize) -> usize
    ensures { IsPlace tokens.now.placed tokens.now.end result }
{
    if left == 0 || left > tokens.count() {
        return tokens.end();
    }
    tokens.place(tokens.count() - left)
}

/// What is answered where the reader of all of these tokens stopped.
pub fn refusal(tokens: &Tokens, stop: Stop) -> SyntaxError
    ensures memory { (result ≡ SyntaxError.Memory) ↔ (stop ≡ Stop.Memory) }
    ensures place { IsAtPlace tokens.now.placed tokens.now.end result }
{
    match stop {
        Stop::Bad { left } => SyntaxError::BadSyntax {
            at: place(tokens, left),
        },
        Stop::Deep { left } => SyntaxError::TooDeep {
            at: place(tokens, left),
        },
        Stop::Memory => SyntaxError::Memory,
    }
}
