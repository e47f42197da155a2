// The arguments of a built-in function, by their places from 0.
ghost use Rattle.std.specs.Prelude.{◌≡◌, [], IfOk};
ghost use Rattle.pr_value.specs.Values as values;
ghost use Rattle.action_eval.specs.Builtins as spec;
ghost use Rattle.action_eval.specs.Builtins.{at};

use crate::held::Held;
use pr_value::{Memory, SymSet, Symbol, Value, members_in, number_in, symbol_in, truth_in};
use std::alloc::Global;

/// The set of a value that is one; else `none`, which is the empty set.
fn set_in<'a>(v: &'a Value, none: &'a SymSet) -> &'a SymSet
    requires { none.now ≡ [] }
    ensures { result.now ≡ spec.set_in v.now }
{
    match v {
        Value::Set(s) => s,
        _ => none,
    }
}

pub fn number_at(args: &[Held], i: usize) -> u64
    ensures { result ≡ values.number_in (at args.now i) }
{
    match args.get(i) {
        Some(v) => number_in(v.get()),
        None => 0,
    }
}

pub fn truth_at(args: &[Held], i: usize) -> bool
    ensures { result ≡ values.truth_in (at args.now i) }
{
    match args.get(i) {
        Some(v) => truth_in(v.get()),
        None => false,
    }
}

pub fn symbol_at(alloc: Global, args: &[Held], i: usize) -> Result<Symbol, Memory>
    ensures { IfOk result (λ s. s ≡ values.symbol_in (at args.now i)) }
{
    match args.get(i) {
        Some(v) => symbol_in(alloc, v.get()),
        None => Symbol::dash(alloc),
    }
}

pub fn members_at<'a>(args: &'a [Held<'_>], i: usize) -> &'a [Symbol]
    ensures { result.now ≡ values.members_in (at args.now i) }
{
    match args.get(i) {
        Some(v) => members_in(v.get()),
        None => &[],
    }
}

pub fn set_at<'a>(args: &'a [Held<'_>], i: usize, none: &'a SymSet) -> &'a SymSet
    requires { none.now ≡ [] }
    ensures { result.now ≡ spec.set_in (at args.now i) }
{
    match args.get(i) {
        Some(v) => set_in(v.get(), none),
        None => none,
    }
}

/// A copy of the argument; where it is missing, 0.
pub fn copy_at<'a>(alloc: Global, args: &[Held<'a>], i: usize) -> Result<Held<'a>, Memory>
    ensures { IfOk result (λ v. v ≡ at args.now i) }
{
    match args.get(i) {
        Some(v) => v.copy(alloc),
        None => Ok(Held::own(Value::Num(0))),
    }
}
