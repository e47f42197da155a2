use crate::toy::{Toy, toy_log};
use derivation::{Line, Log, PushError, Reason};
use pr_value::Items;
use std::alloc::Global;
use std::process::Abort;

/// The two terms and the depth of the line that a reason adds; 99s where it is refused.
fn added(alloc: Global, log: &mut Log<u64, Toy>, why: Reason) -> (usize, usize, usize) {
    match log.push(alloc, why) {
        Ok(i) => {
            let line = log.line(i);
            (line.left, line.right, line.depth)
        }
        Err(_) => (99, 99, 99),
    }
}

fn refused(alloc: Global, log: &mut Log<u64, Toy>, why: Reason) -> bool {
    let count = log.count();
    log.push(alloc, why) == Err(PushError::BadReason) && log.count() == count
}

type Added = (usize, usize, usize);

fn check_added(rt: &impl Abort, alloc: Global, log: &mut Log<u64, Toy>, rows: &[(Reason, Added)]) {
    for (why, wanted) in rows {
        assert_eq!(rt; added(alloc, log, *why), *wanted, "{why:?}");
    }
}

fn check_refused(rt: &impl Abort, alloc: Global, log: &mut Log<u64, Toy>, reasons: &[Reason]) {
    for why in reasons {
        assert!(rt; refused(alloc, log, *why), "{why:?}");
    }
}

const MADE: [(Reason, Added); 6] = [
    (Reason::Query, (3, 3, 0)),
    (Reason::Part { of: 0, at: 0 }, (1, 1, 0)),
    (Reason::Rule { of: 2, rule: 0 }, (1, 2, 1)),
    (Reason::Turn { of: 3 }, (2, 1, 1)),
    (
        Reason::Chain {
            first: 3,
            second: 4,
        },
        (1, 1, 1),
    ),
    (
        Reason::Inside {
            of: 0,
            at: 0,
            by: 3,
        },
        (3, 4, 1),
    ),
];

#[test]
fn each_reason_is_made(rt: HostRuntime) {
    let alloc = rt.alloc();
    let mut log = toy_log(alloc).expect(&rt, "memory");
    check_added(&rt, alloc, &mut log, &MADE);
    assert_eq!(rt; log.terms().count(), 5, "terms");
}

// The root has no rule 0, and there is no rule 1.
const REFUSED: [Reason; 5] = [
    Reason::Part { of: 0, at: 2 },
    Reason::Rule { of: 0, rule: 0 },
    Reason::Rule { of: 0, rule: 1 },
    Reason::Turn { of: 99 },
    Reason::Chain {
        first: 0,
        second: 1,
    },
];

// The trees of the chain do not meet, and the line inside is of another input.
const UNFIT: [Reason; 2] = [
    Reason::Chain {
        first: 0,
        second: 1,
    },
    Reason::Inside {
        of: 0,
        at: 1,
        by: 1,
    },
];

#[test]
fn each_reason_is_refused(rt: HostRuntime) {
    let alloc = rt.alloc();
    let mut log = toy_log(alloc).expect(&rt, "memory");
    check_refused(&rt, alloc, &mut log, &REFUSED);
    added(alloc, &mut log, Reason::Part { of: 0, at: 0 });
    check_refused(&rt, alloc, &mut log, &UNFIT);
}

/// What the use of a rule rests on, in a log with a line that it does not need.
fn sliced(rt: &impl Abort, alloc: Global) -> Items<Line> {
    let mut log = toy_log(alloc).expect(rt, "memory");
    added(alloc, &mut log, Reason::Part { of: 0, at: 1 });
    added(alloc, &mut log, Reason::Part { of: 0, at: 0 });
    added(alloc, &mut log, Reason::Rule { of: 2, rule: 0 });
    assert!(rt; log.count() == 4, "four lines");
    log.slice(alloc, &[3]).expect(rt, "memory")
}

#[test]
fn a_slice_leaves_out_what_is_not_needed(rt: HostRuntime) {
    let lines = sliced(&rt, rt.alloc());
    assert_eq!(rt; lines.len(), 3, "count");
    match lines.as_slice() {
        [_, part, rule] => {
            assert!(rt; part.why == Reason::Part { of: 0, at: 0 }, "part");
            assert!(rt; rule.why == Reason::Rule { of: 1, rule: 0 }, "rule");
        }
        _ => {}
    }
}
