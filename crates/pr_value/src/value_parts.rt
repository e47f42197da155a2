ghost use Rattle.std.specs.Prelude.{◌≡◌, IfOk};
ghost use Rattle.pr_value.specs.Values.{number_in, truth_in, symbol_in, members_in};

use crate::memory::Memory;
use crate::symbol::Symbol;
use crate::value::Value;
use std::alloc::Global;

/// The number of a value that is one; else 0.
pub fn number_in(v: &Value) -> u64
    ensures { result ≡ number_in v.now }
{
    match v {
        Value::Num(n) => *n,
        _ => 0,
    }
}

/// The truth of a value that is one; else false.
pub fn truth_in(v: &Value) -> bool
    ensures { result ≡ truth_in v.now }
{
    match v {
        Value::Truth(b) => *b,
        _ => false,
    }
}

/// The symbol of a value that is one; else `-`.
pub fn symbol_in(alloc: Global, v: &Value) -> Result<Symbol, Memory>
    ensures { IfOk result (λ s. s ≡ symbol_in v.now) }
{
    match v {
        Value::Sym(s) => s.copy(alloc),
        _ => Symbol::dash(alloc),
    }
}

/// The members of a value that is a set or a list, in their order; else none.
pub fn members_in(v: &Value) -> &[Symbol]
    ensures { result.now ≡ members_in v.now }
{
    match v {
        Value::Set(s) => s.as_slice(),
        Value::List(l) => l.as_slice(),
        _ => &[],
    }
}
