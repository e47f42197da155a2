ghost use Rattle.std.specs.Prelude.{◌≡◌, false};

use crate::again::{begins, has_exprs, log_again};
use crate::fragile::{Breaking, Fragile};
use crate::toy::{Toy, term, toy_log};
use derivation::{Log, PushError, Reason, Terms};
use memo::{Counts, Memo, MemoError};
use pr_value::Memory;
use std::alloc::Global;
use std::process::Abort;

/// The number of the line that a reason adds, or 99.
fn pushed(alloc: Global, memo: &mut Memo<u64, Toy>, why: Reason) -> usize
    ensures { memo.new.spoilt ≡ memo.old.spoilt }
{
    match memo.push(alloc, why) {
        Ok(i) => i,
        Err(_) => 99,
    }
}

fn counts(classes: usize, expressions: usize) -> Counts {
    Counts {
        classes,
        expressions,
    }
}

fn toy_memo(rt: &impl Abort, alloc: Global) -> Memo<u64, Toy>
    ensures { result.spoilt ≡ false }
{
    let log = toy_log(alloc).expect(rt, "memory");
    Memo::new(alloc, log).expect(rt, "memory")
}

/// Joins the classes 1 and 2 by the rule at the right tree of a line.
fn merge(rt: &impl Abort, alloc: Global, memo: &mut Memo<u64, Toy>, of: usize)
    ensures { memo.new.spoilt ≡ memo.old.spoilt }
{
    let rule = pushed(alloc, memo, Reason::Rule { of, rule: 0 });
    memo.join(alloc, 1, 2, rule).expect(rt, "join");
    memo.settle(alloc).expect(rt, "settle");
}

fn merged(rt: &impl Abort, alloc: Global) -> Memo<u64, Toy>
    ensures { result.spoilt ≡ false }
{
    let mut memo = toy_memo(rt, alloc);
    let part = pushed(alloc, &mut memo, Reason::Part { of: 0, at: 0 });
    merge(rt, alloc, &mut memo, part);
    memo
}

#[test]
fn a_memo_begins_with_a_class_for_each_node(rt: HostRuntime) {
    let memo = toy_memo(&rt, rt.alloc());
    assert!(rt; memo.counts() == counts(4, 4), "a class for each node");
    assert!(rt; has_exprs(&memo, 1, &[1]), "one expression");
    assert!(rt; has_exprs(&memo, 2, &[2]), "and one");
}

#[test]
fn a_memo_merges_what_a_rule_equates(rt: HostRuntime) {
    let memo = merged(&rt, rt.alloc());
    assert!(rt; memo.counts() == counts(3, 4), "one class fewer");
    assert!(rt; has_exprs(&memo, 1, &[1, 2]), "both");
    assert!(rt; has_exprs(&memo, 2, &[1, 2]), "by the other number");
}

#[test]
fn a_memo_refuses_a_reason_of_no_line(rt: HostRuntime) {
    let alloc = rt.alloc();
    let mut memo = merged(&rt, alloc);
    let count = memo.log().count();
    let bad = memo.push(alloc, Reason::Turn { of: 99 });
    assert!(rt; bad == Err(PushError::BadReason), "no such line");
    assert!(rt; memo.log().count() == count, "the log has its count");
}

#[test]
fn a_memo_equates_on_a_log_that_begins_with_its_own(rt: HostRuntime) {
    let alloc = rt.alloc();
    let memo = merged(&rt, alloc);
    let mut log = log_again(alloc, memo.log()).expect(&rt, "memory");
    assert!(rt; begins(memo.log(), &log), "the memo's log, made again");
    let line = memo.equate_on(alloc, &mut log, 1, 2).expect(&rt, "equate");
    assert!(rt; line < log.count(), "a line");
    let ends = (log.line(line).left, log.line(line).right);
    assert!(rt; ends == (1, 2), "the line's ends");
}

/// A label over one term, four times.
fn tower(alloc: Global, terms: &mut Terms<u64>, bottom: usize) -> usize {
    let mut top = bottom;
    for _ in 0..4 {
        top = term(alloc, terms, 4, &[top]);
    }
    top
}

/// The log of two towers of four, over `1(0)` and `2(0)`: `3(4(4(4(4(1(0))))), 4(4(4(4(2(0))))))`.
fn towers_log(alloc: Global) -> Result<Log<u64, Toy>, Memory> {
    let mut terms = Terms::new(alloc);
    let leaf = term(alloc, &mut terms, 0, &[]);
    let one = term(alloc, &mut terms, 1, &[leaf]);
    let two = term(alloc, &mut terms, 2, &[leaf]);
    let left = tower(alloc, &mut terms, one);
    let right = tower(alloc, &mut terms, two);
    let query = term(alloc, &mut terms, 3, &[left, right]);
    if query >= terms.count() {
        return Err(Memory);
    }
    Log::new(alloc, terms, Toy, query)
}

/// The line of the query's first input, its first input and so on down.
fn down(alloc: Global, memo: &mut Memo<u64, Toy>, levels: usize) -> usize {
    let mut at = 0;
    for _ in 0..levels {
        at = pushed(alloc, memo, Reason::Part { of: at, at: 0 });
    }
    at
}

/// The depth of a line, or 99.
fn depth(memo: &Memo<u64, Toy>, line: usize) -> usize {
    if line < memo.log().count() {
        memo.log().line(line).depth
    } else {
        99
    }
}

#[test]
fn what_is_alike_is_merged_up_four_levels(rt: HostRuntime) {
    let alloc = rt.alloc();
    let log = towers_log(alloc).expect(&rt, "memory");
    let mut memo = Memo::new(alloc, log).expect(&rt, "memory");
    assert!(rt; memo.counts() == counts(12, 12), "a class for each node");
    let bottom = down(alloc, &mut memo, 5);
    merge(&rt, alloc, &mut memo, bottom);
    assert!(rt; memo.counts() == counts(7, 8), "the towers are one");
    let line = memo.equate(alloc, 6, 10).expect(&rt, "equate");
    assert!(rt; depth(&memo, line) == 1, "no deeper than the rule");
}

fn check_spoilt(rt: &impl Abort, alloc: Global, memo: &mut Memo<u64, Toy>) {
    assert!(rt; memo.settle(alloc) == Err(MemoError::Spoilt), "settle");
    assert!(rt; memo.join(alloc, 1, 2, 0) == Err(MemoError::Spoilt), "join");
    assert!(rt;
        memo.add(alloc, 1, &[0], 0) == Err(MemoError::Spoilt),
        "add"
    );
    assert!(rt;
        memo.equate(alloc, 1, 1) == Err(MemoError::Spoilt),
        "equate"
    );
}

#[test]
fn a_memo_after_want_of_memory_is_spoilt(rt: HostRuntime) {
    let alloc = rt.alloc();
    let mut memo = toy_memo(&rt, alloc);
    assert!(rt;
        memo.join(alloc, 1, 2, 0) == Err(MemoError::Memory),
        "no line of these classes"
    );
    check_spoilt(&rt, alloc, &mut memo);
}

/// The log of a hundred towers over `1(0)`, each of a hundred nodes with a label of its own.
fn wide_log(alloc: Global) -> Result<Log<u64, Toy>, Memory> {
    let mut terms = Terms::new(alloc);
    let leaf = term(alloc, &mut terms, 0, &[]);
    let one = term(alloc, &mut terms, 1, &[leaf]);
    let mut tops = Vec::new(alloc);
    for label in 1_000..1_100 {
        let mut top = one;
        for _ in 0..100 {
            top = term(alloc, &mut terms, label, &[top]);
        }
        tops.push(top)?;
    }
    let query = term(alloc, &mut terms, 3, tops.as_slice());
    if query >= terms.count() {
        return Err(Memory);
    }
    Log::new(alloc, terms, Toy, query)
}

/// The line of a tower and the one over `2(0)` in its place.
fn turned(alloc: Global, memo: &mut Memo<u64, Toy>, tower: usize) -> Result<usize, Memory> {
    let mut lines = Vec::new(alloc);
    let mut at = pushed(alloc, memo, Reason::Part { of: 0, at: tower });
    for _ in 0..100 {
        lines.push(at)?;
        at = pushed(alloc, memo, Reason::Part { of: at, at: 0 });
    }
    let mut line = pushed(alloc, memo, Reason::Rule { of: at, rule: 0 });
    for of in lines.iter().rev() {
        let inside = Reason::Inside {
            of: *of,
            at: 0,
            by: line,
        };
        line = pushed(alloc, memo, inside);
    }
    Ok(line)
}

/// The line of the query and what it is with every tower turned.
fn all_turned(alloc: Global, memo: &mut Memo<u64, Toy>) -> Result<usize, Memory> {
    let mut line = 0;
    for tower in 0..100 {
        let by = turned(alloc, memo, tower)?;
        let inside = Reason::Inside {
            of: line,
            at: tower,
            by,
        };
        line = pushed(alloc, memo, inside);
    }
    Ok(line)
}

/// Joins the class 1 and the one of `2(0)`.
fn join_two(rt: &impl Abort, alloc: Global, memo: &mut Memo<u64, Toy>) {
    let of = down(alloc, memo, 101);
    let rule = pushed(alloc, memo, Reason::Rule { of, rule: 0 });
    let two = memo.add(alloc, 2, &[0], rule).expect(rt, "add");
    memo.join(alloc, 1, two, rule).expect(rt, "join");
    memo.settle(alloc).expect(rt, "settle");
}

/// The two terms of a line that is there.
fn ends(rt: &impl Abort, memo: &Memo<u64, Toy>, line: usize) -> (usize, usize) {
    assert!(rt; line < memo.log().count(), "a line");
    (memo.log().line(line).left, memo.log().line(line).right)
}

#[test]
fn a_term_of_ten_thousand_nodes_is_learnt(rt: HostRuntime) {
    let alloc = rt.alloc();
    let log = wide_log(alloc).expect(&rt, "memory");
    let mut memo = Memo::new(alloc, log).expect(&rt, "memory");
    let line = all_turned(alloc, &mut memo).expect(&rt, "memory");
    join_two(&rt, alloc, &mut memo);
    assert!(rt;
        memo.counts() == counts(10_003, 10_004),
        "one class for both"
    );
    let (left, right) = ends(&rt, &memo, line);
    assert!(rt; left != right, "two terms");
    let found = memo.equate(alloc, left, right).expect(&rt, "equate");
    assert!(rt; depth(&memo, found) == 1, "no deeper than the rule");
    assert!(rt; memo.counts() == counts(10_003, 10_004), "no class more");
}

/// The log of `3(1(0))` over labels of which some have no copy.
fn fragile_log(alloc: Global) -> Result<Log<Fragile, Breaking>, Memory> {
    let mut terms = Terms::new(alloc);
    let leaf = terms.add(alloc, Fragile { value: 0 }, &[])?;
    if leaf >= terms.count() {
        return Err(Memory);
    }
    let one = terms.add(alloc, Fragile { value: 1 }, &[leaf])?;
    if one >= terms.count() {
        return Err(Memory);
    }
    let query = terms.add(alloc, Fragile { value: 3 }, &[one])?;
    Log::new(alloc, terms, Breaking, query)
}

fn fragile_memo(rt: &impl Abort, alloc: Global) -> Memo<Fragile, Breaking> {
    let log = fragile_log(alloc).expect(rt, "memory");
    Memo::new(alloc, log).expect(rt, "memory")
}

/// The line by which the query's input turns into a label without a copy.
fn breaking(rt: &impl Abort, alloc: Global, memo: &mut Memo<Fragile, Breaking>) -> usize {
    let part = memo.push(alloc, Reason::Part { of: 0, at: 0 });
    let of = part.expect(rt, "part");
    let rule = memo.push(alloc, Reason::Rule { of, rule: 0 });
    rule.expect(rt, "rule")
}

fn check_broken(rt: &impl Abort, alloc: Global, memo: &mut Memo<Fragile, Breaking>, rule: usize) {
    assert!(rt; memo.settle(alloc) == Err(MemoError::Spoilt), "settle");
    assert!(rt;
        memo.join(alloc, 1, 2, rule) == Err(MemoError::Spoilt),
        "join"
    );
    let again = memo.add(alloc, Fragile { value: 5 }, &[0], rule);
    assert!(rt; again == Err(MemoError::Spoilt), "add");
    assert!(rt;
        memo.equate(alloc, 1, 1) == Err(MemoError::Spoilt),
        "equate"
    );
}

#[test]
fn a_label_without_a_copy_spoils_the_memo(rt: HostRuntime) {
    let alloc = rt.alloc();
    let mut memo = fragile_memo(&rt, alloc);
    let rule = breaking(&rt, alloc, &mut memo);
    let count = memo.log().count();
    let added = memo.add(alloc, Fragile { value: 100 }, &[0], rule);
    assert!(rt; added == Err(MemoError::Memory), "no copy of the label");
    check_broken(&rt, alloc, &mut memo, rule);
    assert!(rt; memo.log().count() == count, "the log has its count");
    assert!(rt;
        memo.push(alloc, Reason::Turn { of: rule }).is_ok(),
        "and goes on"
    );
}
