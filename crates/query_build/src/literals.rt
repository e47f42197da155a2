// The values of settings.
ghost use Rattle.std.specs.Prelude.{◌≡◌, IfOk};
ghost use Rattle.pr_value.specs.Values as values;
ghost use Rattle.query_build.specs.Query as spec;

use pr_value::{CAP, Items, Kind, Memory, SymList, SymSet, Symbol, Value, copy_symbols};
use rule_ast::Literal;
use std::alloc::Global;

/// Whether the value is of the kind. It takes no memory.
pub(crate) fn has_kind(kind: Kind, literal: &Literal) -> bool
    ensures { result ≡ values.has_kind kind (spec.literal_value literal.now) }
{
    match (kind, literal) {
        (Kind::Num | Kind::Cost, Literal::Number(n)) => *n <= CAP,
        (Kind::Truth, Literal::Truth(_)) => true,
        (Kind::Symbol, Literal::Sym(_)) => true,
        (Kind::Set, Literal::SetOf(_)) => true,
        (Kind::List, Literal::ListOf(_)) => true,
        _ => false,
    }
}

fn set_of(alloc: Global, symbols: &Items<Symbol>) -> Result<Value, Memory>
    ensures { IfOk result (λ v. v ≡ spec.literal_value (Literal.SetOf symbols.now)) }
{
    let members = copy_symbols(alloc, symbols.as_slice())?;
    let set = SymSet::from_symbols(alloc, members)?;
    Ok(Value::Set(set))
}

fn list_of(alloc: Global, symbols: &Items<Symbol>) -> Result<Value, Memory>
    ensures { IfOk result (λ v. v ≡ spec.literal_value (Literal.ListOf symbols.now)) }
{
    let members = copy_symbols(alloc, symbols.as_slice())?;
    Ok(Value::List(SymList::from_symbols(members)))
}

/// The value that a literal stands for.
pub(crate) fn literal_value(alloc: Global, literal: &Literal) -> Result<Value, Memory>
    ensures { IfOk result (λ v. v ≡ spec.literal_value literal.now) }
{
    match literal {
        Literal::Number(n) => Ok(Value::Num(*n)),
        Literal::Truth(b) => Ok(Value::Truth(*b)),
        Literal::Sym(s) => Ok(Value::Sym(s.copy(alloc)?)),
        Literal::SetOf(symbols) => set_of(alloc, symbols),
        Literal::ListOf(symbols) => list_of(alloc, symbols),
    }
}
