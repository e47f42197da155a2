// The text of tokens.
ghost use Rattle.std.specs.Prelude.{◌≡◌, ◌++◌, codes, OnOk};
ghost use Rattle.pr_value.specs.TokenTexts.{spaced};
ghost use Rattle.rule_syntax.specs.Separators.{before_part};

use pr_value::{Memory, Text, Token, push_token};
use std::alloc::Global;

/// The blank before the token at this place, which the first has not.
fn push_blank(place: usize, out: &mut Text) -> Result<(), Memory>
    ensures { OnOk result (out.new ≡ out.old ++ before_part place (codes " ")) }
{
    if place == 0 {
        return Ok(());
    }
    out.push_bytes(b" ")?;
    Ok(())
}

/// Appends the texts of the tokens, with one blank between.
pub fn push_spaced(alloc: Global, tokens: &[Token], out: &mut Text) -> Result<(), Memory>
    ensures { OnOk result (out.new ≡ out.old ++ spaced tokens.now) }
{
    for (i, token) in tokens.iter().enumerate() {
        push_blank(i, out)?;
        push_token(alloc, token, out)?;
    }
    Ok(())
}
