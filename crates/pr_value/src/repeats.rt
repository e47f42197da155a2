ghost use Rattle.std.specs.Prelude.{◌≡◌, IfOk};
ghost use Rattle.pr_value.specs.Repeats.{are_distinct, first_repeated};

use crate::memory::Memory;
use crate::symbol::Symbol;
use std::alloc::Global;
use std::collections::BTreeSet;

/// The place of the first symbol that equals an earlier one, from 0, if there is one.
pub fn first_repeated(alloc: Global, symbols: &[Symbol]) -> Result<Option<usize>, Memory>
    ensures { IfOk result (λ p. p ≡ first_repeated symbols.now) }
{
    let mut earlier = BTreeSet::new(alloc);
    for (i, symbol) in symbols.iter().enumerate() {
        let is_new = earlier.insert(symbol.copy(alloc)?)?;
        if !is_new {
            return Ok(Some(i));
        }
    }
    Ok(None)
}

/// Whether no symbol stands twice.
pub fn are_distinct(alloc: Global, symbols: &[Symbol]) -> Result<bool, Memory>
    ensures { IfOk result (λ b. b ≡ are_distinct symbols.now) }
{
    let repeated = first_repeated(alloc, symbols)?;
    Ok(repeated.is_none())
}
