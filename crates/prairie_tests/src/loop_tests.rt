use crate::listed::Listed;
use crate::looping::Looping;
use crate::random::{lower, next, random_goals, seeds_of, value_at, way_cost, ways_at};
use crate::rows::{Row, goals_of};
use crate::ways::{Kind, Way};
use best_plan::{Choices, FindError};
use loop_plan::{Falls, fall};
use pr_value::{CAP, Items};
use std::alloc::Global;
use std::process::Abort;

fn looping_of(rt: &impl Abort, alloc: Global, rows: &[&[Row]]) -> Looping {
    let goals = goals_of(rt, alloc, rows);
    Looping {
        goals: Listed::new(alloc, goals).expect(rt, "memory"),
    }
}

/// What falls from that root, if it is a goal.
fn falls_of(alloc: Global, choices: &mut Looping, root: u32) -> Option<Result<Falls, FindError>> {
    if root >= choices.goals() {
        return None;
    }
    Some(fall(alloc, choices, root))
}

/// The values of goals are these, and each but 0 and 10^18 + 1 is a last solution's cost.
fn has_values(rt: &impl Abort, alloc: Global, rows: &[&[Row]], root: u32, values: &[u64]) -> bool {
    let mut choices = looping_of(rt, alloc, rows);
    match falls_of(alloc, &mut choices, root) {
        Some(Ok(falls)) => are_values(&falls, values),
        _ => false,
    }
}

fn are_values(falls: &Falls, values: &[u64]) -> bool {
    for goal in 0..16 {
        match values.get(goal as usize) {
            Some(value) => {
                if falls.value(goal) != *value || !is_held(falls, goal) {
                    return false;
                }
            }
            None => {
                if falls.value(goal) != 0 || falls.last(goal).is_some() {
                    return false;
                }
            }
        }
    }
    true
}

/// The goal's last solution, if it has one, is of the goal and costs its value.
fn is_held(falls: &Falls, goal: u32) -> bool {
    match falls.last(goal) {
        Some(at) => match falls.solutions().get(at) {
            Some(s) => s.goal == goal && s.cost == falls.value(goal),
            None => false,
        },
        None => falls.value(goal) == 0 || falls.value(goal) > CAP,
    }
}

const PAST: u64 = CAP + 1;

// A scan of 10, and a way round to itself that costs at most 6.
const CHEAPER_IN_THE_LOOP: [&[Row]; 2] = [
    &[(Kind::Sum, 10, &[1]), (Kind::Least, 6, &[0])],
    &[(Kind::Sum, 0, &[])],
];

// What is distinct is distinct by hashing it, and by what it is already.
const PLANNED_DISTINCT: [&[Row]; 3] = [
    &[(Kind::Sum, 3, &[1]), (Kind::Sum, 3, &[0])],
    &[(Kind::Sum, 5, &[2])],
    &[(Kind::Sum, 0, &[])],
];

#[test]
fn loops_end_at_the_least(rt: HostRuntime) {
    let alloc = rt.alloc();
    assert!(rt; has_values(&rt, alloc, &CHEAPER_IN_THE_LOOP, 0, &[6, 0]));
    assert!(rt; has_values(&rt, alloc, &PLANNED_DISTINCT, 0, &[8, 5, 0]));
    // A goal that only leads to itself, and a loop of cost 0.
    assert!(rt; has_values(&rt, alloc, &[&[(Kind::Sum, 1, &[0])]], 0, &[PAST]));
    let free: [&[Row]; 2] = [
        &[(Kind::Sum, 0, &[1])],
        &[(Kind::Sum, 0, &[0]), (Kind::Sum, 7, &[])],
    ];
    assert!(rt; has_values(&rt, alloc, &free, 0, &[7, 7]));
    // A cost of 10^18, and 0 times 'no plan', which is no plan.
    let high: [&[Row]; 3] = [
        &[(Kind::Sum, CAP, &[1]), (Kind::Product, 0, &[2])],
        &[(Kind::Sum, 1, &[])],
        &[(Kind::Sum, 0, &[2])],
    ];
    assert!(rt; has_values(&rt, alloc, &high, 0, &[CAP, 1, PAST]));
    // No other goal has a value.
    assert!(rt; has_values(&rt, alloc, &high, 1, &[0, 1, 0]));
}

#[test]
fn a_fall_ends_at_goals_full(rt: HostRuntime) {
    let alloc = rt.alloc();
    let mut choices = looping_of(&rt, alloc, &PLANNED_DISTINCT);
    choices.goals.left = 2;
    let full = match falls_of(alloc, &mut choices, 0) {
        Some(Err(error)) => error == FindError::GoalsFull,
        _ => false,
    };
    assert!(rt; full && choices.unfolded(1));
}

/// The least costs of solutions that are at most so high.
fn least_costs(rt: &impl Abort, alloc: Global, goals: &Items<Items<Way>>, height: u32) -> [u64; 5] {
    let mut values = [PAST; 5];
    for _ in 0..height {
        let before = values;
        for goal in 0..5 {
            for way in ways_at(goals, goal) {
                let cost = way_cost(rt, alloc, way, 0, &before);
                lower(&mut values, goal, cost);
            }
        }
    }
    values
}

/// Each goal that has a value has the least cost of solutions.
fn agrees(falls: &Falls, values: &[u64]) -> bool {
    for goal in 0..5 {
        let value = falls.value(goal);
        let led = value != 0 || falls.last(goal).is_some();
        if led && value != value_at(values, goal as usize) || !is_held(falls, goal) {
            return false;
        }
    }
    falls.value(0) == value_at(values, 0)
}

/// Whether the falls of five goals with the alternatives of these seeds are their least costs.
fn falls_right(rt: &impl Abort, alloc: Global, seeds: &[u64]) -> bool {
    let goals = random_goals(rt, alloc, seeds);
    let values = least_costs(rt, alloc, &goals, 40);
    let mut choices = Looping {
        goals: Listed::new(alloc, goals).expect(rt, "memory"),
    };
    match falls_of(alloc, &mut choices, 0) {
        Some(Ok(falls)) => agrees(&falls, &values),
        _ => false,
    }
}

#[test]
fn falls_are_least_costs(rt: HostRuntime) {
    let alloc = rt.alloc();
    let mut state = 88_172_645_463_325_252;
    for _ in 0..2000 {
        state = next(state);
        let seeds = seeds_of(&rt, alloc, state);
        assert!(rt; falls_right(&rt, alloc, seeds.as_slice()), "{state}");
    }
}
