use crate::best::best;
use crate::best_all::{least_costs, next, random_goals};
use crate::listed::Listed;
use crate::rows::{Row, goals_of};
use crate::ways::{Kind, Way};
use pr_value::{CAP, Items};
use std::alloc::Global;
use std::process::Abort;

/// The goals as moves, all unfolded.
fn unfolded(rt: &impl Abort, alloc: Global, goals: Items<Items<Way>>) -> Listed {
    let mut moves = Listed::new(alloc, goals).expect(rt, "memory");
    moves.unfold_all().expect(rt, "unfold");
    moves
}

/// What the best solutions of goal 0 cost.
fn best_costs(rt: &impl Abort, alloc: Global, moves: &Listed, most: usize) -> Vec<u64> {
    let mut costs = Vec::new(alloc);
    if let Some(listed) = best(alloc, moves, 0, most) {
        for at in listed.chosen.as_slice() {
            if let Some(solution) = listed.solutions.get(*at) {
                costs.push(solution.cost).expect(rt, "memory");
            }
        }
    }
    costs
}

/// The best solutions of goal 0 of these rows are as many, and cost this.
fn are_best(rt: &impl Abort, alloc: Global, rows: &[&[Row]], most: usize, wanted: &[u64]) -> bool {
    let moves = unfolded(rt, alloc, goals_of(rt, alloc, rows));
    best_costs(rt, alloc, &moves, most).as_slice() == wanted
}

// A scan of 10 and one of 7.
const ONLY_TWO_PLANS: [&[Row]; 2] = [
    &[(Kind::Sum, 10, &[1]), (Kind::Sum, 7, &[1])],
    &[(Kind::Sum, 0, &[])],
];

// Loops over goals 1 and 3 cost 0 times goal 3, and a hash costs 5 whatever goal 3 costs.
const HASH_COMES_SECOND: [&[Row]; 4] = [
    &[(Kind::Sum, 5, &[1, 2]), (Kind::Product, 0, &[1, 3])],
    &[(Kind::Sum, 0, &[])],
    &[(Kind::Product, 0, &[3])],
    &[(Kind::Sum, 1_000_000, &[])],
];

// What is distinct is distinct by hashing it, also where it is hashed already.
const PLANNED_DISTINCT: [&[Row]; 4] = [
    &[(Kind::Sum, 3, &[2]), (Kind::Sum, 3, &[1])],
    &[(Kind::Sum, 3, &[2])],
    &[(Kind::Sum, 5, &[3])],
    &[(Kind::Sum, 0, &[])],
];

#[test]
fn the_cheapest_come_in_order(rt: HostRuntime) {
    let alloc = rt.alloc();
    assert!(rt; are_best(&rt, alloc, &ONLY_TWO_PLANS, 3, &[7, 10]));
    assert!(rt; are_best(&rt, alloc, &ONLY_TWO_PLANS, 1, &[7]));
    assert!(rt; are_best(&rt, alloc, &HASH_COMES_SECOND, 2, &[0, 5]));
    assert!(rt; are_best(&rt, alloc, &HASH_COMES_SECOND, 16, &[0, 5]));
    assert!(rt; are_best(&rt, alloc, &PLANNED_DISTINCT, 16, &[8, 11]));
}

#[test]
fn what_shows_the_same_comes_once(rt: HostRuntime) {
    let alloc = rt.alloc();
    // Goals 1 and 2 show the same, so both alternatives do.
    let same: [&[Row]; 3] = [
        &[(Kind::Sum, 3, &[1]), (Kind::Sum, 3, &[2])],
        &[(Kind::Sum, 5, &[])],
        &[(Kind::Sum, 5, &[])],
    ];
    assert!(rt; are_best(&rt, alloc, &same, 16, &[8]));
    // The same face over the same input, at another cost.
    let dearer: [&[Row]; 2] = [
        &[(Kind::Product, 3, &[1]), (Kind::Sum, 3, &[1])],
        &[(Kind::Sum, 5, &[])],
    ];
    assert!(rt; are_best(&rt, alloc, &dearer, 16, &[8, 15]));
    // The same cost over the same input, with another face.
    let other: [&[Row]; 2] = [
        &[(Kind::Sum, 0, &[1]), (Kind::Least, 9, &[1])],
        &[(Kind::Sum, 5, &[])],
    ];
    assert!(rt; are_best(&rt, alloc, &other, 16, &[5, 5]));
}

#[test]
fn a_goal_may_be_reached_twice(rt: HostRuntime) {
    let alloc = rt.alloc();
    let twice: [&[Row]; 2] = [
        &[(Kind::Sum, 1, &[1, 1])],
        &[(Kind::Sum, 6, &[]), (Kind::Sum, 5, &[])],
    ];
    assert!(rt; are_best(&rt, alloc, &twice, 3, &[11, 12, 12]));
    assert!(rt; are_best(&rt, alloc, &twice, 16, &[11, 12, 12, 13]));
}

#[test]
fn there_may_be_fewer_or_none(rt: HostRuntime) {
    let alloc = rt.alloc();
    let none: [&[Row]; 2] = [&[(Kind::Sum, 1, &[1])], &[]];
    assert!(rt; are_best(&rt, alloc, &none, 16, &[]));
    // 0 times what has no solution is no solution.
    let factor: [&[Row]; 2] = [&[(Kind::Product, 0, &[1]), (Kind::Sum, 9, &[])], &[]];
    assert!(rt; are_best(&rt, alloc, &factor, 16, &[9]));
    // Costs end at the cap. The faces are the same, so both show the same over what costs 2.
    let high: [&[Row]; 2] = [
        &[(Kind::Sum, CAP + 1, &[1]), (Kind::Sum, CAP - 1, &[1])],
        &[(Kind::Sum, 2, &[]), (Kind::Sum, 0, &[])],
    ];
    assert!(rt; are_best(&rt, alloc, &high, 16, &[CAP - 1, CAP, CAP]));
}

#[test]
fn few_of_many_combinations_are_taken(rt: HostRuntime) {
    let alloc = rt.alloc();
    let mut goals = goals_of(&rt, alloc, &[&[(Kind::Sum, 0, &[1, 1, 1, 1])]]);
    let mut many = Items::new(alloc);
    for from in 0..16 {
        let way = Way {
            kind: Kind::Sum,
            from,
            inputs: Items::new(alloc),
        };
        many.push(way).expect(&rt, "memory");
    }
    goals.push(many).expect(&rt, "memory");
    let moves = unfolded(&rt, alloc, goals);
    let wanted = [0, 1, 1, 1, 1, 2, 2, 2, 2, 2, 2, 2, 2, 2, 2, 3];
    assert!(rt; best_costs(&rt, alloc, &moves, 16).as_slice() == wanted.as_slice());
}

#[test]
fn best_lists_are_the_cheapest_of_all(rt: HostRuntime) {
    let alloc = rt.alloc();
    let mut state = 88_172_645_463_325_252;
    let mut tried = 0u64;
    for round in 0..2200 {
        state = next(state);
        let most = 1 + round % 16;
        let goals = random_goals(&rt, alloc, state);
        if let Some(wanted) = least_costs(&rt, alloc, &goals, most) {
            let moves = unfolded(&rt, alloc, goals);
            let costs = best_costs(&rt, alloc, &moves, most);
            assert!(rt; costs.as_slice() == wanted.as_slice(), "{state}");
            tried = tried.saturating_add(1);
        }
    }
    assert!(rt; tried >= 2000, "{tried}");
}
