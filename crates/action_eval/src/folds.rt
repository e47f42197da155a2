// What a fold makes of the values that its body has at the members.
ghost use Rattle.std.specs.Prelude.{◌≡◌, IfOk};
ghost use Rattle.std.specs.List.{list_all, list_any};
ghost use Rattle.pr_value.specs.Values.{members_in, truth_in};
ghost use Rattle.action_eval.specs.Builtins.{collection};
ghost use Rattle.action_eval.specs.Folds.{total_of, product_of, kept_of, fold_of};

use crate::arguments::truth_at;
use crate::collections::list_of;
use crate::held::Held;
use pr_value::{Memory, SymSet, Symbol, Value, cap_add, cap_mul, number_in, truth_in};
use rule_ast::FoldKind;
use std::alloc::Global;

/// The fold over a set or a list, from the value at each member in order.
pub fn folded(alloc: Global, fold: FoldKind, over: &Value, values: &[Held]) -> Result<Value, Memory>
    ensures { IfOk result (λ v. v ≡ fold_of fold over.now values.now) }
{
    match fold {
        FoldKind::Sum => Ok(Value::Num(total(values))),
        FoldKind::Product => Ok(Value::Num(product(values))),
        FoldKind::Any => Ok(Value::Truth(some_true(values))),
        FoldKind::All => Ok(Value::Truth(all_true(values))),
        FoldKind::Keep => keep(alloc, over, values),
    }
}

fn total(values: &[Held]) -> u64
    ensures { result ≡ total_of values.now 0 }
{
    let mut sum = 0;
    let mut left = values.len();
    while left > 0 {
        left -= 1;
        let value = values[left].get();
        sum = cap_add(number_in(value), sum);
    }
    sum
}

fn product(values: &[Held]) -> u64
    ensures { result ≡ product_of values.now 1 }
{
    let mut product = 1;
    let mut left = values.len();
    while left > 0 {
        left -= 1;
        let value = values[left].get();
        product = cap_mul(number_in(value), product);
    }
    product
}

fn some_true(values: &[Held]) -> bool
    ensures { result ≡ list_any truth_in values.now }
{
    values.iter().any(|v| truth_in(v.get()))
}

fn all_true(values: &[Held]) -> bool
    ensures { result ≡ list_all truth_in values.now }
{
    values.iter().all(|v| truth_in(v.get()))
}

/// The set or the list of the members beside which a truth holds.
fn keep(alloc: Global, over: &Value, values: &[Held]) -> Result<Value, Memory>
    ensures { IfOk result (λ v. v ≡ collection over.now (kept_of (members_in over.now) values.now)) }
{
    match over {
        Value::List(list) => {
            let members = kept(alloc, list.as_slice(), values)?;
            Ok(Value::List(list_of(alloc, members.as_slice())?))
        }
        Value::Set(set) => {
            let members = kept(alloc, set.as_slice(), values)?;
            Ok(Value::Set(SymSet::from_symbols(alloc, members)?))
        }
        _ => Ok(Value::Set(SymSet::new(alloc))),
    }
}

fn kept(alloc: Global, members: &[Symbol], values: &[Held]) -> Result<Vec<Symbol>, Memory>
    ensures { IfOk result (λ ss. ss.items ≡ kept_of members.now values.now) }
{
    let mut kept = Vec::new(alloc);
    for (i, member) in members.iter().enumerate() {
        if !truth_at(values, i) {
            continue;
        }
        kept.push(member.copy(alloc)?)?;
    }
    Ok(kept)
}
