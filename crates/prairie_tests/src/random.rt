use crate::ways::{Kind, Way, joined};
use pr_value::{CAP, Items};
use std::alloc::Global;
use std::process::Abort;

/// The next number of a sequence that looks random.
pub fn next(state: u64) -> u64 {
    let a = state ^ (state << 13);
    let b = a ^ (a >> 7);
    b ^ (b << 17)
}

/// An alternative of up to two inputs out of five goals.
fn random_way(rt: &impl Abort, alloc: Global, state: u64) -> Way {
    let kind = match (state >> 8) % 4 {
        0 => Kind::Least,
        1 => Kind::Product,
        _ => Kind::Sum,
    };
    let mut inputs = Items::new(alloc);
    for i in 0..(state >> 16) % 3 {
        let input = (state >> (20 + 4 * i)) % 5;
        inputs.push(input as u32).expect(rt, "memory");
    }
    Way {
        kind,
        from: (state >> 40) % 7,
        inputs,
    }
}

/// Up to three alternatives.
fn random_ways(rt: &impl Abort, alloc: Global, seed: u64) -> Items<Way> {
    let mut state = seed;
    let mut ways = Items::new(alloc);
    for _ in 0..(seed >> 30) % 4 {
        state = next(state);
        ways.push(random_way(rt, alloc, state)).expect(rt, "memory");
    }
    ways
}

/// Goals, each with the alternatives of its seed.
pub fn random_goals(rt: &impl Abort, alloc: Global, seeds: &[u64]) -> Items<Items<Way>> {
    let mut goals = Items::new(alloc);
    for seed in seeds {
        goals
            .push(random_ways(rt, alloc, *seed))
            .expect(rt, "memory");
    }
    goals
}

/// Five seeds.
pub fn seeds_of(rt: &impl Abort, alloc: Global, state: u64) -> Vec<u64> {
    let mut seed = state;
    let mut seeds = Vec::new(alloc);
    for _ in 0..5 {
        seed = next(seed);
        seeds.push(seed).expect(rt, "memory");
    }
    seeds
}

/// The alternatives of that goal.
pub fn ways_at(goals: &Items<Items<Way>>, goal: usize) -> &[Way] {
    match goals.get(goal) {
        Some(ways) => ways.as_slice(),
        None => &[],
    }
}

pub fn value_at(values: &[u64], goal: usize) -> u64 {
    match values.get(goal) {
        Some(value) => *value,
        None => CAP + 1,
    }
}

/// The value of the goal is at most this.
pub fn lower(values: &mut [u64], goal: usize, value: u64) {
    if goal < values.len() && value < values[goal] {
        values[goal] = value;
    }
}

/// The alternative's inputs as goals from the first one to goal 4; none where the first is past it.
pub fn inputs_from(rt: &impl Abort, alloc: Global, way: &Way, first: usize) -> Vec<usize> {
    let mut inputs = Vec::new(alloc);
    if first <= 4 {
        for input in way.inputs.as_slice() {
            inputs
                .push((*input as usize).max(first).min(4))
                .expect(rt, "memory");
        }
    }
    inputs
}

/// What the alternative costs from inputs of these values, as a number past the cap where one is.
pub fn way_cost(rt: &impl Abort, alloc: Global, way: &Way, first: usize, values: &[u64]) -> u64 {
    let mut costs = Vec::new(alloc);
    for input in inputs_from(rt, alloc, way, first).as_slice() {
        let cost = value_at(values, *input);
        if cost > CAP {
            return CAP + 1;
        }
        costs.push(cost).expect(rt, "memory");
    }
    joined(way.kind, way.from, costs.as_slice())
}
