// The printers of lists, whatever their parts are.
ghost use Rattle.std.specs.Prelude.{◌≡◌, ◌++◌, flat_map, map, OnOk};
ghost use Rattle.rule_syntax.specs.Tokens.{Text, commas};

use crate::printing::tokens::push_comma;
use pr_value::{Items, Memory, Token};
use std::alloc::Global;

/// A part that comes in lists, and its tokens.
pub trait Printed {
    ghost spelling: { Self → Text };

    fn print(&self, alloc: Global, tokens: &mut Items<Token>) -> Result<(), Memory>
        ensures { OnOk result (tokens.new ≡ tokens.old ++ spelling self.now) };
}

/// One part after another.
pub fn push_all<P: Printed>(
    alloc: Global,
    parts: &[P],
    tokens: &mut Items<Token>,
) -> Result<(), Memory>
    ensures { OnOk result (tokens.new ≡ tokens.old ++ flat_map P.spelling parts.now) }
{
    for part in parts {
        part.print(alloc, tokens)?;
    }
    Ok(())
}

/// The parts with commas between.
pub fn push_listed<P: Printed>(
    alloc: Global,
    parts: &[P],
    tokens: &mut Items<Token>,
) -> Result<(), Memory>
    ensures { OnOk result (tokens.new ≡ tokens.old ++ commas (map P.spelling parts.now)) }
{
    for (i, part) in parts.iter().enumerate() {
        push_comma(i, tokens)?;
        part.print(alloc, tokens)?;
    }
    Ok(())
}
