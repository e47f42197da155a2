ghost use Rattle.std.specs.Prelude.{◌≡◌, ◌↔◌, ◌++◌, IsTrue, IfOk, OnOk, OnErr};
ghost use Rattle.pr_value.specs.Values.{default_of, has_kind, is_default, same_value, value_text};

use crate::capped::CAP;
use crate::kind::Kind;
use crate::memory::Memory;
use crate::printing::{push_number, push_quoted, push_truth, text_of_symbols};
use crate::sym_list::SymList;
use crate::sym_set::SymSet;
use crate::symbol::Symbol;
use crate::symbols::same_symbols;
use crate::text::Text;
use std::alloc::Global;

/// A value of a property.
#[derive(Drop)]
pub enum Value {
    Num(u64),
    Truth(bool),
    Sym(Symbol),
    Set(SymSet),
    List(SymList),
}

impl Value {
    /// The value that a property of the kind has where none is given.
    pub fn default_of(alloc: Global, kind: Kind) -> Result<Value, Memory>
        ensures { IfOk result (λ v. v ≡ default_of kind) }
    {
        match kind {
            Kind::Num | Kind::Cost => Ok(Value::Num(0)),
            Kind::Truth => Ok(Value::Truth(false)),
            Kind::Symbol => Ok(Value::Sym(Symbol::dash(alloc)?)),
            Kind::Set => Ok(Value::Set(SymSet::new(alloc))),
            Kind::List => Ok(Value::List(SymList::new(alloc))),
        }
    }

    /// Whether the value is of the kind. A number or a cost is one up to `CAP`.
    pub fn has_kind(&self, kind: Kind) -> bool
        ensures { result ≡ has_kind kind self.now }
    {
        match (kind, self) {
            (Kind::Num | Kind::Cost, Value::Num(n)) => *n <= CAP,
            (Kind::Truth, Value::Truth(_)) => true,
            (Kind::Symbol, Value::Sym(_)) => true,
            (Kind::Set, Value::Set(_)) => true,
            (Kind::List, Value::List(_)) => true,
            _ => false,
        }
    }

    /// Whether the value is 0, false, `-`, or a set or list without members.
    pub fn is_default(&self) -> bool
        ensures { result ≡ is_default self.now }
    {
        match self {
            Value::Num(n) => *n == 0,
            Value::Truth(b) => !*b,
            Value::Sym(s) => s.as_slice() == b"-".as_slice(),
            Value::Set(s) => s.as_slice().is_empty(),
            Value::List(l) => l.as_slice().is_empty(),
        }
    }

    /// Whether the values are equal. It takes no memory.
    pub fn same(&self, other: &Value) -> bool
        ensures value { result ≡ same_value self.now other.now }
        ensures equal { IsTrue result ↔ (self.now ≡ other.now) }
    {
        match (self, other) {
            (Value::Num(m), Value::Num(n)) => *m == *n,
            (Value::Truth(a), Value::Truth(b)) => *a == *b,
            (Value::Sym(s), Value::Sym(t)) => *s == *t,
            (Value::Set(s), Value::Set(t)) => same_symbols(s.as_slice(), t.as_slice()),
            (Value::List(s), Value::List(t)) => same_symbols(s.as_slice(), t.as_slice()),
            _ => false,
        }
    }

    /// An equal value.
    pub fn copy(&self, alloc: Global) -> Result<Value, Memory>
        ensures { IfOk result (λ v. v ≡ self.now) }
    {
        match self {
            Value::Num(n) => Ok(Value::Num(*n)),
            Value::Truth(b) => Ok(Value::Truth(*b)),
            Value::Sym(s) => Ok(Value::Sym(s.copy(alloc)?)),
            Value::Set(s) => Ok(Value::Set(s.copy(alloc)?)),
            Value::List(l) => Ok(Value::List(l.copy(alloc)?)),
        }
    }

    /// Appends the value's text: decimal digits, `true` or `false`, `'name` or `'-`, `{'a, 'b}`
    /// ascending, or `['a, 'b]`. The text is unchanged after an error.
    pub fn print(&self, alloc: Global, out: &mut Text) -> Result<(), Memory>
        ensures ok { OnOk result (out.new ≡ out.old ++ value_text self.now) }
        ensures err { OnErr result (out.new ≡ out.old) }
    {
        match self {
            Value::Num(n) => push_number(alloc, *n, out),
            Value::Truth(b) => push_truth(*b, out),
            Value::Sym(s) => push_quoted(alloc, s, out),
            Value::Set(s) => {
                let text = text_of_symbols(alloc, b"{", s.as_slice(), b"}")?;
                out.push_bytes(text.as_slice())
            }
            Value::List(l) => {
                let text = text_of_symbols(alloc, b"[", l.as_slice(), b"]")?;
                out.push_bytes(text.as_slice())
            }
        }
    }
}
