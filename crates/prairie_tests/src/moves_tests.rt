use crate::listed::Listed;
use crate::rows::{Row, goals_of, ways};
use crate::search::Search;
use crate::ways::{Kind, Way};
use best_plan::{Choices, FindError, Found};
use pr_value::{CAP, Items};
use std::alloc::Global;
use std::process::Abort;

fn search_of(rt: &impl Abort, alloc: Global, rows: &[&[Row]]) -> Search {
    let moves = Listed::new(alloc, goals_of(rt, alloc, rows)).expect(rt, "memory");
    Search::new(alloc, moves)
}

/// What `find` answers, and None where a condition of the call does not hold.
fn found(search: &mut Search, goal: u32, limit: u64) -> Option<Found> {
    match search.find(goal, limit)? {
        Ok(found) => Some(found),
        Err(_) => None,
    }
}

const NOT_BELOW: Option<Found> = Some(Found::NotBelow);

fn below(cost: u64) -> Option<Found> {
    Some(Found::Below(cost))
}

// Goal 2 costs 50, goal 1 at most 4 of it, goal 0 3 more: an input's limit is not what is left of
// the limit.
const CAPPED_BY_MIN: [&[Row]; 3] = [
    &[(Kind::Sum, 3, &[1])],
    &[(Kind::Least, 4, &[2])],
    &[(Kind::Sum, 50, &[])],
];

#[test]
fn an_input_may_cost_more_than_its_goal(rt: HostRuntime) {
    let mut search = search_of(&rt, rt.alloc(), &CAPPED_BY_MIN);
    assert!(rt; found(&mut search, 0, 7) == NOT_BELOW);
    assert!(rt; found(&mut search, 0, 8) == below(7));
    assert!(rt; found(&mut search, 2, 50) == NOT_BELOW);
    assert!(rt; found(&mut search, 2, 51) == below(50));
}

// Goal 0 costs 13 by goal 1, and 12 by goals 2 and 3; goal 4 leads nowhere.
const GROWING: [&[Row]; 5] = [
    &[
        (Kind::Sum, 10, &[1]),
        (Kind::Sum, 1, &[2, 3]),
        (Kind::Sum, 0, &[4]),
    ],
    &[(Kind::Sum, 3, &[])],
    &[(Kind::Sum, 5, &[]), (Kind::Sum, 9, &[])],
    &[(Kind::Sum, 6, &[]), (Kind::Product, 2, &[4, 4])],
    &[],
];

#[test]
fn limits_grow_on_one_table(rt: HostRuntime) {
    let mut search = search_of(&rt, rt.alloc(), &GROWING);
    for limit in 0..13 {
        assert!(rt; found(&mut search, 0, limit) == NOT_BELOW, "under {limit}");
    }
    for limit in [13, 14, 100, CAP + 1] {
        assert!(rt; found(&mut search, 0, limit) == below(12), "under {limit}");
    }
    assert!(rt; found(&mut search, 0, 12) == NOT_BELOW);
    assert!(rt; search.table.choice(0) == Some(1) && search.table.bound(0) == 12);
    assert!(rt; found(&mut search, 4, CAP + 1) == NOT_BELOW);
    assert!(rt; search.table.choice(4).is_none() && search.table.bound(4) == CAP + 1);
    assert!(rt; search.find(5, 1).is_none() && search.find(0, CAP + 2).is_none());
}

#[test]
fn goals_are_unfolded_when_asked_for(rt: HostRuntime) {
    let rows: [&[Row]; 2] = [&[(Kind::Sum, 10, &[1])], &[(Kind::Sum, 3, &[])]];
    let mut search = search_of(&rt, rt.alloc(), &rows);
    assert!(rt; found(&mut search, 0, 10) == NOT_BELOW);
    assert!(rt; search.moves.unfolded(0) && !search.moves.unfolded(1));
    assert!(rt; found(&mut search, 0, 13) == NOT_BELOW && search.table.bound(0) == 13);
    assert!(rt; found(&mut search, 0, 14) == below(13));
}

#[test]
fn costs_reach_the_cap(rt: HostRuntime) {
    let rows: [&[Row]; 6] = [
        &[(Kind::Sum, 7, &[4]), (Kind::Product, 0, &[4])],
        &[(Kind::Product, 0, &[2, 3])],
        &[(Kind::Product, 3, &[3]), (Kind::Sum, CAP, &[3])],
        &[(Kind::Sum, CAP, &[]), (Kind::Sum, 1, &[5])],
        &[(Kind::Least, 2, &[5, 5])],
        &[],
    ];
    let mut search = search_of(&rt, rt.alloc(), &rows);
    assert!(rt; found(&mut search, 0, CAP + 1) == NOT_BELOW && search.table.bound(0) == CAP + 1);
    assert!(rt; found(&mut search, 3, CAP) == NOT_BELOW && search.table.bound(3) == CAP);
    assert!(rt; found(&mut search, 3, CAP + 1) == below(CAP));
    assert!(rt; found(&mut search, 1, 1) == below(0));
    assert!(rt; found(&mut search, 2, CAP + 1) == below(CAP));
    assert!(rt; search.table.choice(2) == Some(0));
}

/// Three hundred alternatives over the goals 1 and 2, of which one is cheap.
fn many_ways(rt: &impl Abort, alloc: Global) -> Items<Way> {
    let mut many = Items::new(alloc);
    for k in 0..300 {
        let way = Way {
            kind: Kind::Sum,
            from: if k == 211 { 4 } else { 1000 - k },
            inputs: Items::from_slice(alloc, &[1, 2]).expect(rt, "memory"),
        };
        many.push(way).expect(rt, "memory");
    }
    many
}

#[test]
fn goals_may_have_many_alternatives(rt: HostRuntime) {
    let alloc = rt.alloc();
    let mut goals = Items::new(alloc);
    goals.push(many_ways(&rt, alloc)).expect(&rt, "memory");
    let one = ways(&rt, alloc, &[(Kind::Sum, 20, &[])]);
    goals.push(one).expect(&rt, "memory");
    let two = ways(&rt, alloc, &[(Kind::Sum, 30, &[]), (Kind::Sum, 31, &[])]);
    goals.push(two).expect(&rt, "memory");
    let moves = Listed::new(alloc, goals).expect(&rt, "memory");
    let mut search = Search::new(alloc, moves);
    assert!(rt; found(&mut search, 0, 54) == NOT_BELOW);
    assert!(rt; found(&mut search, 0, 55) == below(54) && search.table.choice(0) == Some(211));
}

#[test]
fn a_search_goes_on_after_goals_full(rt: HostRuntime) {
    let mut search = search_of(&rt, rt.alloc(), &GROWING);
    search.moves.left = 3;
    assert!(rt; search.find(0, CAP + 1) == Some(Err(FindError::GoalsFull)));
    assert!(rt; search.moves.left == 0 && search.table.choice(0).is_none());
    search.moves.left = 1;
    assert!(rt; search.find(0, CAP + 1) == Some(Err(FindError::GoalsFull)));
    assert!(rt; search.table.choice(3) == Some(0) && search.table.bound(3) == 6);
    search.moves.left = 1;
    assert!(rt; found(&mut search, 0, CAP + 1) == below(12));
    search.moves.left = 0;
    assert!(rt; found(&mut search, 0, CAP + 1) == below(12));
    assert!(rt; search.find(1, 5) == Some(Ok(Found::Below(3))));
}

/// Appends the goals of two sets of alternatives.
fn push_two(rt: &impl Abort, alloc: Global, goals: &mut Items<Items<Way>>, rows: &[&[Row]; 2]) {
    for row in rows {
        goals.push(ways(rt, alloc, row)).expect(rt, "memory");
    }
}

/// Two goals a level, each with a way by each goal of the level below.
fn diamond(rt: &impl Abort, alloc: Global) -> Listed {
    let mut goals = Items::new(alloc);
    for level in 0..17 {
        let left = 2 * level + 2;
        let right = 2 * level + 3;
        let rows: [&[Row]; 2] = [
            &[(Kind::Sum, 1, &[left]), (Kind::Sum, 2, &[right])],
            &[(Kind::Sum, 3, &[left]), (Kind::Sum, 1, &[right])],
        ];
        push_two(rt, alloc, &mut goals, &rows);
    }
    let rows: [&[Row]; 2] = [
        &[(Kind::Sum, 5, &[]), (Kind::Sum, 4, &[])],
        &[(Kind::Sum, 9, &[]), (Kind::Sum, 9, &[])],
    ];
    push_two(rt, alloc, &mut goals, &rows);
    Listed::new(alloc, goals).expect(rt, "memory")
}

#[test]
fn each_goal_is_solved_once(rt: HostRuntime) {
    let alloc = rt.alloc();
    let mut moves = diamond(&rt, alloc);
    moves.unfold_all().expect(&rt, "unfold");
    let mut search = Search::new(alloc, moves);
    assert!(rt; search.moves.goals() == 36);
    assert!(rt; search.solve(0) == Some(21) && search.moves.asked.get() == 70);
    assert!(rt; search.solve(1) == Some(23) && search.moves.asked.get() == 72);
    assert!(rt; search.solve(0) == Some(21) && search.moves.asked.get() == 72);
    assert!(rt; found(&mut search, 0, CAP + 1) == below(21) && search.moves.asked.get() == 72);
}

#[test]
fn few_goals_are_asked_for_when_unfolded_late(rt: HostRuntime) {
    let alloc = rt.alloc();
    let mut lazy = Search::new(alloc, diamond(&rt, alloc));
    assert!(rt; lazy.solve(0).is_none());
    assert!(rt; found(&mut lazy, 0, CAP + 1) == below(21));
    let asked = lazy.moves.asked.get();
    assert!(rt; asked < 10_000, "{asked} calls");
}
