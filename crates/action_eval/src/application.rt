// What the built-in functions give of their arguments.
ghost use Rattle.std.specs.Prelude.{◌≡◌, ◌++◌, unwrap_or, slice_get, codes, if◌then◌else◌, IfOk};
ghost use Rattle.std.specs.Option.{option_copied};
ghost use Rattle.pr_value.specs.SymbolSets.{set_of};
ghost use Rattle.pr_value.specs.Values.{truth_in};
ghost use Rattle.action_eval.specs.Builtins as spec;
ghost use Rattle.action_eval.specs.Builtins.{at, builtin_value};

use crate::arguments::{copy_at, members_at, number_at, set_at, symbol_at, truth_at};
use crate::collections::{list_of, push_all, symbols_in};
use crate::held::Held;
use catalog::Catalog;
use pr_value::{CAP, Memory, SymList, SymSet, Symbol, Value, cap_log2, copy_symbols, symbol_in};
use rule_ast::Builtin;
use std::alloc::Global;

/// What a built-in function gives of its arguments.
pub fn apply(
    alloc: Global,
    function: Builtin,
    args: &[Held],
    catalog: &Catalog,
) -> Result<Value, Memory>
    ensures { IfOk result (λ v. v ≡ builtin_value catalog.now function args.now) }
{
    let none = SymSet::new(alloc);
    let first = set_at(args, 0, &none);
    let second = set_at(args, 1, &none);
    match function {
        Builtin::If => choice(alloc, args),
        Builtin::Not => Ok(Value::Truth(!truth_at(args, 0))),
        Builtin::Min => Ok(Value::Num(number_at(args, 0).min(number_at(args, 1)))),
        Builtin::Max => Ok(Value::Num(number_at(args, 0).max(number_at(args, 1)))),
        Builtin::Log2 => Ok(Value::Num(cap_log2(number_at(args, 0)))),
        Builtin::Union => Ok(Value::Set(first.union(alloc, second)?)),
        Builtin::Minus => Ok(Value::Set(first.minus(alloc, second)?)),
        Builtin::Meet => Ok(Value::Set(first.meet(alloc, second)?)),
        Builtin::Has => Ok(Value::Truth(first.contains(&symbol_at(alloc, args, 1)?))),
        Builtin::Subset => Ok(Value::Truth(first.subset(second))),
        Builtin::Size => Ok(Value::Num(count(first.as_slice()))),
        Builtin::Length => Ok(Value::Num(count(members_at(args, 0)))),
        Builtin::At => member_at(alloc, members_at(args, 0), number_at(args, 1)),
        Builtin::Prefix => Ok(Value::Truth(is_prefix(members_at(args, 0), members_at(args, 1)))),
        Builtin::Concat => concat(alloc, members_at(args, 0), members_at(args, 1)),
        Builtin::Elems => elements(alloc, members_at(args, 0)),
        Builtin::NumAt => Ok(num_found(found(alloc, args, catalog)?)),
        Builtin::TruthAt => Ok(truth_found(found(alloc, args, catalog)?)),
        Builtin::SymbolAt => symbol_found(alloc, found(alloc, args, catalog)?),
        Builtin::SetAt => set_found(alloc, found(alloc, args, catalog)?),
        Builtin::ListAt => list_found(alloc, found(alloc, args, catalog)?),
    }
}

fn choice(alloc: Global, args: &[Held]) -> Result<Value, Memory>
    ensures { IfOk result (λ v. v ≡ (if truth_in (at args.now 0) then at args.now 1 else at args.now 2)) }
{
    if truth_at(args, 0) {
        copy_at(alloc, args, 1)?.into_value(alloc)
    } else {
        copy_at(alloc, args, 2)?.into_value(alloc)
    }
}

fn count(symbols: &[Symbol]) -> u64
    ensures { result ≡ spec.capped_length symbols.now }
{
    (symbols.len() as u64).min(CAP)
}

/// The symbol at a place from 0, or `-`.
fn member_at(alloc: Global, symbols: &[Symbol], place: u64) -> Result<Value, Memory>
    ensures { IfOk result (λ v. v ≡ Value.Sym (unwrap_or (slice_get symbols.now place) (codes "-"))) }
{
    match symbols.get(place as usize) {
        Some(symbol) => Ok(Value::Sym(symbol.copy(alloc)?)),
        None => Ok(Value::Sym(Symbol::dash(alloc)?)),
    }
}

fn is_prefix(first: &[Symbol], second: &[Symbol]) -> bool
    ensures { result ≡ spec.is_prefix first.now second.now }
{
    second.starts_with(first)
}

fn concat(alloc: Global, first: &[Symbol], second: &[Symbol]) -> Result<Value, Memory>
    ensures { IfOk result (λ v. v ≡ Value.List (first.now ++ second.now)) }
{
    let mut list = list_of(alloc, first)?;
    push_all(alloc, second, &mut list)?;
    Ok(Value::List(list))
}

fn elements(alloc: Global, symbols: &[Symbol]) -> Result<Value, Memory>
    ensures { IfOk result (λ v. v ≡ Value.Set (set_of symbols.now)) }
{
    let copies = copy_symbols(alloc, symbols)?;
    Ok(Value::Set(SymSet::from_symbols(alloc, copies)?))
}

/// The value in the table that the first argument names, at the keys that follow.
fn found<'a>(
    alloc: Global,
    args: &[Held],
    catalog: &'a Catalog,
) -> Result<Option<&'a Value>, Memory>
    ensures { IfOk result (λ v. option_copied v ≡ spec.found catalog.now args.now) }
{
    match args.split_first() {
        Some((table, keys)) => {
            let table = symbol_in(alloc, table.get())?;
            let keys = symbols_in(alloc, keys)?;
            Ok(catalog.lookup(&table, keys.as_slice()))
        }
        None => Ok(None),
    }
}

fn num_found(value: Option<&Value>) -> Value
    ensures { result ≡ spec.num_found (option_copied value.entry) }
{
    match value {
        Some(Value::Num(n)) => Value::Num((*n).min(CAP)),
        _ => Value::Num(0),
    }
}

fn truth_found(value: Option<&Value>) -> Value
    ensures { result ≡ spec.truth_found (option_copied value.entry) }
{
    match value {
        Some(Value::Truth(b)) => Value::Truth(*b),
        _ => Value::Truth(false),
    }
}

fn symbol_found(alloc: Global, value: Option<&Value>) -> Result<Value, Memory>
    ensures { IfOk result (λ v. v ≡ spec.symbol_found (option_copied value.entry)) }
{
    match value {
        Some(Value::Sym(s)) => Ok(Value::Sym(s.copy(alloc)?)),
        _ => Ok(Value::Sym(Symbol::dash(alloc)?)),
    }
}

fn set_found(alloc: Global, value: Option<&Value>) -> Result<Value, Memory>
    ensures { IfOk result (λ v. v ≡ spec.set_found (option_copied value.entry)) }
{
    match value {
        Some(Value::Set(s)) => Ok(Value::Set(s.copy(alloc)?)),
        _ => Ok(Value::Set(SymSet::new(alloc))),
    }
}

fn list_found(alloc: Global, value: Option<&Value>) -> Result<Value, Memory>
    ensures { IfOk result (λ v. v ≡ spec.list_found (option_copied value.entry)) }
{
    match value {
        Some(Value::List(l)) => Ok(Value::List(l.copy(alloc)?)),
        _ => Ok(Value::List(SymList::new(alloc))),
    }
}
