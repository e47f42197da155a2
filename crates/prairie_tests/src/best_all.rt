use crate::ways::{Kind, Way, joined};
use pr_value::Items;
use std::alloc::Global;
use std::process::Abort;

/// What solutions show, each once: the face, the cost, and the numbers of what the two inputs show,
/// or NONE. An instance with more than so many is too large.
pub type Seen = Vec<[u64; 4]>;

pub const NONE: u64 = u64::MAX;

pub const LARGE: usize = 60;

/// The next number of a sequence that looks random.
pub fn next(state: u64) -> u64 {
    let a = state ^ (state << 13);
    let b = a ^ (a >> 7);
    b ^ (b << 17)
}

/// An alternative of up to two inputs out of the goals behind this one of four.
fn random_way(rt: &impl Abort, alloc: Global, goal: u64, state: u64) -> Way {
    let kind = match (state >> 8) % 4 {
        0 => Kind::Least,
        1 => Kind::Product,
        _ => Kind::Sum,
    };
    let mut inputs = Items::new(alloc);
    if goal < 3 {
        for i in 0..(state >> 16) % 3 {
            let input = goal + 1 + (state >> (20 + 4 * i)) % (3 - goal);
            inputs.push(input as u32).expect(rt, "memory");
        }
    }
    Way {
        kind,
        from: (state >> 40) % 7,
        inputs,
    }
}

/// Four goals with up to three alternatives each.
pub fn random_goals(rt: &impl Abort, alloc: Global, seed: u64) -> Items<Items<Way>> {
    let mut state = seed;
    let mut goals = Items::new(alloc);
    for goal in 0..4 {
        state = next(state);
        let count = (state >> 30) % 4;
        let mut ways = Items::new(alloc);
        for _ in 0..count {
            state = next(state);
            ways.push(random_way(rt, alloc, goal, state))
                .expect(rt, "memory");
        }
        goals.push(ways).expect(rt, "memory");
    }
    goals
}

/// The number of what is shown, new or not.
fn number_of(rt: &impl Abort, seen: &mut Seen, shown: [u64; 4]) -> u64 {
    for (number, other) in seen.iter().enumerate() {
        if *other == shown {
            return number as u64;
        }
    }
    let number = seen.len() as u64;
    if seen.len() < LARGE {
        seen.push(shown).expect(rt, "memory");
    }
    number
}

fn cost_at(seen: &Seen, number: u64) -> u64 {
    match seen.get(number as usize) {
        Some(shown) => shown[1],
        None => 0,
    }
}

/// What the alternative shows from inputs that show these.
fn showing(seen: &Seen, way: &Way, first: u64, second: u64) -> [u64; 4] {
    let costs = [cost_at(seen, first), cost_at(seen, second)];
    let n = way.inputs.len().min(2);
    [
        way.from,
        joined(way.kind, way.from, &costs[..n]),
        first,
        second,
    ]
}

/// What the alternative's input at that place may show, or none where there is no such input. The
/// last of the lists is of the goal behind this one.
fn shown_by_input(
    rt: &impl Abort,
    alloc: Global,
    lists: &[Vec<u64>],
    way: &Way,
    i: usize,
) -> Vec<u64> {
    let mut numbers = Vec::new(alloc);
    match way.inputs.get(i) {
        Some(goal) => {
            if let Some(list) = lists.get(3u32.saturating_sub(*goal) as usize) {
                for number in list {
                    numbers.push(*number).expect(rt, "memory");
                }
            }
        }
        None => numbers.push(NONE).expect(rt, "memory"),
    }
    numbers
}

/// Adds what the alternative shows from all that its inputs show.
fn add_way(
    rt: &impl Abort,
    alloc: Global,
    seen: &mut Seen,
    lists: &[Vec<u64>],
    way: &Way,
    list: &mut Vec<u64>,
) {
    let firsts = shown_by_input(rt, alloc, lists, way, 0);
    let seconds = shown_by_input(rt, alloc, lists, way, 1);
    for first in firsts.iter() {
        for second in seconds.iter() {
            let shown = showing(seen, way, *first, *second);
            let number = number_of(rt, seen, shown);
            if !list.contains(&number) {
                list.push(number).expect(rt, "memory");
            }
        }
    }
}

/// What all solutions of goal 0 cost that show something else than another, the cheapest first, and
/// at most so many. None where there are too many.
pub fn least_costs(
    rt: &impl Abort,
    alloc: Global,
    goals: &Items<Items<Way>>,
    most: usize,
) -> Option<Vec<u64>> {
    let mut seen = Vec::new(alloc);
    let mut lists = Vec::new(alloc);
    for place in 0..4 {
        let mut list = Vec::new(alloc);
        if let Some(ways) = goals.get(3 - place) {
            for way in ways.as_slice() {
                add_way(rt, alloc, &mut seen, lists.as_slice(), way, &mut list);
            }
        }
        lists.push(list).expect(rt, "memory");
    }
    if seen.len() >= LARGE {
        return None;
    }
    let mut costs = Vec::new(alloc);
    if let Some(list) = lists.get(3) {
        for number in list {
            costs.push(cost_at(&seen, *number)).expect(rt, "memory");
        }
    }
    costs.sort().expect(rt, "memory");
    costs.truncate(most);
    Some(costs)
}
