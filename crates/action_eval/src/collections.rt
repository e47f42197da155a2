// Sets and lists out of symbols.
ghost use Rattle.std.specs.Prelude.{◌≡◌, ◌++◌, IfOk, OnOk};
ghost use Rattle.pr_value.specs.SymbolSets.{set_of};
ghost use Rattle.pr_value.specs.declared.value.Value.TheVariants as value;
ghost use Rattle.action_eval.specs.Builtins as builtins;

use crate::held::Held;
use pr_value::{Memory, SymList, SymSet, Symbol, Value, symbol_in};
use std::alloc::Global;

/// The symbols of values.
pub fn symbols_in(alloc: Global, values: &[Held]) -> Result<Vec<Symbol>, Memory>
    ensures { IfOk result (λ ss. ss.items ≡ builtins.symbols_in values.now) }
{
    let mut symbols = Vec::with_capacity(alloc, values.len())?;
    for value in values {
        symbols.push(symbol_in(alloc, value.get())?)?;
    }
    Ok(symbols)
}

/// The list of these symbols, in their order.
pub fn list_of(alloc: Global, symbols: &[Symbol]) -> Result<SymList, Memory>
    ensures { IfOk result (λ l. l ≡ symbols.now) }
{
    let mut list = SymList::new(alloc);
    push_all(alloc, symbols, &mut list)?;
    Ok(list)
}

/// Appends copies of the symbols.
pub fn push_all(alloc: Global, symbols: &[Symbol], list: &mut SymList) -> Result<(), Memory>
    ensures { OnOk result (list.new ≡ list.old ++ symbols.now) }
{
    for symbol in symbols {
        list.push(symbol.copy(alloc)?)?;
    }
    Ok(())
}

/// `{..}`
pub fn set_value(alloc: Global, values: &[Held]) -> Result<Value, Memory>
    ensures { IfOk result (λ v. v ≡ value.Set (set_of (builtins.symbols_in values.now))) }
{
    let symbols = symbols_in(alloc, values)?;
    Ok(Value::Set(SymSet::from_symbols(alloc, symbols)?))
}

/// `[..]`
pub fn list_value(alloc: Global, values: &[Held]) -> Result<Value, Memory>
    ensures { IfOk result (λ v. v ≡ value.List (builtins.symbols_in values.now)) }
{
    let symbols = symbols_in(alloc, values)?;
    Ok(Value::List(list_of(alloc, symbols.as_slice())?))
}
