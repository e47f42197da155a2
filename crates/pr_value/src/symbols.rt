ghost use Rattle.std.specs.Prelude.{◌≡◌, ◌↔◌, IsTrue, IfOk};
ghost use Rattle.pr_value.specs.SymbolSets.{contains, same_list};

use crate::memory::Memory;
use crate::symbol::Symbol;
use std::alloc::Global;

/// Equal symbols in the same order.
pub fn copy_symbols(alloc: Global, symbols: &[Symbol]) -> Result<Vec<Symbol>, Memory>
    ensures { IfOk result (λ v. v.items ≡ symbols.now) }
{
    let mut copies = Vec::with_capacity(alloc, symbols.len())?;
    for symbol in symbols {
        copies.push(symbol.copy(alloc)?)?;
    }
    Ok(copies)
}

/// Whether the symbol is one of these.
pub fn contains(symbols: &[Symbol], symbol: &Symbol) -> bool
    ensures { result ≡ contains symbols.now symbol.now }
{
    symbols.iter().any(|known| *symbol == *known)
}

/// Whether these are the same symbols in the same order.
pub fn same_symbols(a: &[Symbol], b: &[Symbol]) -> bool
    ensures value { result ≡ same_list a.now b.now }
    ensures equal { IsTrue result ↔ (a.now ≡ b.now) }
{
    a == b
}
