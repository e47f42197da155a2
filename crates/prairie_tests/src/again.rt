ghost use Rattle.std.specs.Prelude.{◌≡◌, true, false, length, take};
ghost use Rattle.memo.specs.Grew.{Begins};

use crate::toy::{Toy, toy_log};
use derivation::{Line, Log, Term, Terms};
use memo::Memo;
use pr_value::Memory;
use std::alloc::Global;

fn is_term(a: &Term<u64>, b: &Term<u64>) -> bool
    ensures { result ≡ true → b.now ≡ a.now }
{
    a == b
}

fn is_line(a: &Line, b: &Line) -> bool
    ensures { result ≡ true → b.now ≡ a.now }
{
    a == b
}

fn terms_begin(first: &Terms<u64>, terms: &Terms<u64>) -> bool
    ensures { result ≡ true → take (length first.now) terms.now ≡ first.now }
{
    if first.count() > terms.count() {
        return false;
    }
    for i in 0..first.count() {
        if !is_term(first.term(i), terms.term(i)) {
            return false;
        }
    }
    true
}

fn lines_begin(first: &Log<u64, Toy>, log: &Log<u64, Toy>) -> bool
    ensures { result ≡ true → take (length first.now.lines) log.now.lines ≡ first.now.lines }
{
    if first.count() > log.count() {
        return false;
    }
    for i in 0..first.count() {
        if !is_line(first.line(i), log.line(i)) {
            return false;
        }
    }
    true
}

/// Whether the terms and lines of the one are the first of the other.
pub fn begins(first: &Log<u64, Toy>, log: &Log<u64, Toy>) -> bool
    ensures { result ≡ true → Begins first.now log.now }
{
    if !terms_begin(first.terms(), log.terms()) {
        return false;
    }
    lines_begin(first, log)
}

/// The log of `toy_log` with the reasons of another.
pub fn log_again(alloc: Global, first: &Log<u64, Toy>) -> Result<Log<u64, Toy>, Memory> {
    let mut log = toy_log(alloc)?;
    for i in 1..first.count() {
        match log.push(alloc, first.line(i).why) {
            Ok(_) => {}
            Err(_) => return Err(Memory),
        }
    }
    Ok(log)
}

/// Whether there is such a class, with these expressions.
#[tactic(auto, using(crate::proofs::AgainLaws::lives_low))]
pub fn has_exprs(memo: &Memo<u64, Toy>, class: usize, exprs: &[usize]) -> bool
    requires { memo.now.spoilt ≡ false }
{
    if class < memo.counts().expressions {
        memo.class_exprs(class) == exprs
    } else {
        false
    }
}
