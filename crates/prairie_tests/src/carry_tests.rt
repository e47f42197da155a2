use crate::listed::{Listed, same_kind};
use crate::random::{
    inputs_from, lower, next, random_goals, seeds_of, value_at, way_cost, ways_at,
};
use crate::rows::{Row, goals_of};
use crate::search::Search;
use crate::ways::{Kind, Way};
use best_plan::{Choices, Found};
use pr_value::{CAP, Items};
use std::alloc::Global;
use std::process::Abort;

/// The goals, all unfolded.
fn unfolded(rt: &impl Abort, alloc: Global, goals: Items<Items<Way>>) -> Listed {
    let mut moves = Listed::new(alloc, goals).expect(rt, "memory");
    moves.unfold_all().expect(rt, "unfold");
    moves
}

/// The new goals with the table of the old, all solved.
fn carried_goals(
    rt: &impl Abort,
    alloc: Global,
    old: Items<Items<Way>>,
    new: Items<Items<Way>>,
    places: &[Option<u32>],
) -> Option<Search> {
    let mut search = Search::new(alloc, unfolded(rt, alloc, old));
    for goal in 0..search.moves.goals() {
        search.solve(goal)?;
    }
    search.carried(alloc, unfolded(rt, alloc, new), places)
}

fn moves_of(rt: &impl Abort, alloc: Global, rows: &[&[Row]]) -> Listed {
    unfolded(rt, alloc, goals_of(rt, alloc, rows))
}

fn carried(
    rt: &impl Abort,
    alloc: Global,
    old: &[&[Row]],
    new: &[&[Row]],
    places: &[Option<u32>],
) -> Option<Search> {
    let old = goals_of(rt, alloc, old);
    let new = goals_of(rt, alloc, new);
    carried_goals(rt, alloc, old, new, places)
}

fn bounds(search: &Option<Search>) -> [u64; 4] {
    let mut bounds = [CAP; 4];
    if let Some(search) = search {
        for goal in 0..4 {
            bounds[goal as usize] = search.table.bound(goal);
        }
    }
    bounds
}

const OLD: [&[Row]; 4] = [
    &[(Kind::Sum, 1, &[1, 2])],
    &[(Kind::Sum, 1, &[3])],
    &[(Kind::Sum, 5, &[]), (Kind::Product, 2, &[3])],
    &[(Kind::Sum, 3, &[])],
];

#[test]
fn goals_are_kept_that_did_not_change(rt: HostRuntime) {
    let alloc = rt.alloc();
    let all = [Some(0), Some(1), Some(2), Some(3)];
    let same = carried(&rt, alloc, &OLD, &OLD, &all);
    assert!(rt; bounds(&same) == [10, 4, 5, 3]);
    // Goal 2 has another number, so that neither it nor goal 0 is kept.
    let new: [&[Row]; 4] = [
        &[(Kind::Sum, 1, &[1, 2])],
        &[(Kind::Sum, 1, &[3])],
        &[(Kind::Sum, 6, &[]), (Kind::Product, 2, &[3])],
        &[(Kind::Sum, 3, &[])],
    ];
    let mut changed = carried(&rt, alloc, &OLD, &new, &all);
    assert!(rt; bounds(&changed) == [0, 4, 0, 3]);
    if let Some(search) = &mut changed {
        assert!(rt; search.find(0, CAP + 1) == Some(Ok(Found::Below(11))));
    }
}

#[test]
fn goals_are_kept_by_their_places(rt: HostRuntime) {
    let alloc = rt.alloc();
    // One place is given twice, and one is none.
    let twice: [&[Row]; 4] = [
        &[(Kind::Sum, 1, &[3])],
        &[(Kind::Sum, 1, &[3])],
        &[(Kind::Sum, 5, &[])],
        &[(Kind::Sum, 3, &[])],
    ];
    let kept = carried(
        &rt,
        alloc,
        &OLD,
        &twice,
        &[Some(1), Some(1), Some(2), Some(3)],
    );
    assert!(rt; bounds(&kept) == [4, 4, 0, 3]);
    let none = carried(&rt, alloc, &OLD, &OLD, &[Some(0), Some(1), Some(2), None]);
    assert!(rt; bounds(&none) == [0, 0, 0, 0]);
    // The input is kept, but not as the input of the place.
    let other: [&[Row]; 4] = [
        &[(Kind::Sum, 1, &[1, 2])],
        &[(Kind::Sum, 1, &[2])],
        &[(Kind::Sum, 3, &[])],
        &[(Kind::Sum, 3, &[])],
    ];
    let moved = carried(
        &rt,
        alloc,
        &OLD,
        &other,
        &[Some(0), Some(1), Some(3), Some(7)],
    );
    assert!(rt; bounds(&moved) == [0, 4, 3, 0]);
}

// A scan at the price of a catalog, and one for 7.
const FREE: [&[Row]; 2] = [
    &[(Kind::Sum, 0, &[1]), (Kind::Sum, 7, &[1])],
    &[(Kind::Sum, 0, &[])],
];

const FOR_THREE: [&[Row]; 2] = [
    &[(Kind::Sum, 3, &[1]), (Kind::Sum, 7, &[1])],
    &[(Kind::Sum, 0, &[])],
];

const FOR_NINE: [&[Row]; 2] = [
    &[(Kind::Sum, 9, &[1]), (Kind::Sum, 7, &[1])],
    &[(Kind::Sum, 0, &[])],
];

/// The least cost of goal 0 over the table that is carried from the one before, which is left.
fn price(rt: &impl Abort, alloc: Global, before: &mut Search, rows: &[&[Row]]) -> Option<Found> {
    let mut after = before.carried(alloc, moves_of(rt, alloc, rows), &[Some(0), Some(1)])?;
    let found = match after.find(0, CAP + 1)? {
        Ok(found) => Some(found),
        Err(_) => None,
    };
    *before = after;
    found
}

#[test]
fn a_price_is_edited(rt: HostRuntime) {
    let alloc = rt.alloc();
    let mut search = Search::new(alloc, moves_of(&rt, alloc, &FREE));
    assert!(rt; price(&rt, alloc, &mut search, &FREE) == Some(Found::Below(0)));
    assert!(rt; price(&rt, alloc, &mut search, &FOR_THREE) == Some(Found::Below(3)));
    assert!(rt; price(&rt, alloc, &mut search, &FOR_NINE) == Some(Found::Below(7)));
}

/// The seeds, of which some are others.
fn edited(rt: &impl Abort, alloc: Global, seeds: &[u64], state: u64) -> Vec<u64> {
    let mut choice = state;
    let mut new = Vec::new(alloc);
    for seed in seeds {
        choice = next(choice);
        let other = if choice % 4 == 0 { choice } else { *seed };
        new.push(other).expect(rt, "memory");
    }
    new
}

/// Most goals at their own places, some at none and some at any.
fn random_places(rt: &impl Abort, alloc: Global, state: u64) -> Vec<Option<u32>> {
    let mut choice = state;
    let mut places = Vec::new(alloc);
    for goal in 0..5 {
        choice = next(choice);
        let place = match choice % 8 {
            0 => None,
            1 => Some(((choice >> 8) % 6) as u32),
            _ => Some(goal),
        };
        places.push(place).expect(rt, "memory");
    }
    places
}

fn place_at(places: &[Option<u32>], goal: usize) -> Option<u32> {
    match places.get(goal) {
        Some(place) => *place,
        None => None,
    }
}

fn is_kept_as(kept: &[Option<u32>], goal: usize, was: usize) -> bool {
    match place_at(kept, goal) {
        Some(place) => place as usize == was,
        None => false,
    }
}

/// The inputs are kept, in order, as the others.
fn are_kept(inputs: &[usize], others: &[usize], kept: &[Option<u32>]) -> bool {
    let mut same = inputs.len() == others.len();
    for (input, other) in inputs.iter().zip(others) {
        same = same && is_kept_as(kept, *input, *other);
    }
    same
}

/// The alternatives of a goal and of its place are the same, from inputs that are kept.
fn is_match(
    rt: &impl Abort,
    alloc: Global,
    new: &[Way],
    old: &[Way],
    (goal, was): (usize, usize),
    kept: &[Option<u32>],
) -> bool {
    let mut same = new.len() == old.len();
    for (a, b) in new.iter().zip(old) {
        let inputs = inputs_from(rt, alloc, a, goal.saturating_add(1));
        let others = inputs_from(rt, alloc, b, was.saturating_add(1));
        let form = same_kind(a.kind, b.kind) && a.from == b.from;
        same = same && form && are_kept(inputs.as_slice(), others.as_slice(), kept);
    }
    same
}

/// The places of the goals that are kept, found from the last goal on.
fn kept_places(
    rt: &impl Abort,
    alloc: Global,
    new: &Items<Items<Way>>,
    old: &Items<Items<Way>>,
    places: &[Option<u32>],
) -> Vec<Option<u32>> {
    let mut kept = vec![in alloc; None; 5].expect(rt, "memory");
    for goal in [4, 3, 2, 1, 0] {
        if let Some(was) = place_at(places, goal) {
            let pair = (goal, was as usize);
            let (ways, others) = (ways_at(new, goal), ways_at(old, was as usize));
            if was < 5 && is_match(rt, alloc, ways, others, pair, kept.as_slice()) {
                kept[goal] = Some(was);
            }
        }
    }
    kept
}

/// The least costs, found from the last goal on.
fn least_costs(rt: &impl Abort, alloc: Global, goals: &Items<Items<Way>>) -> [u64; 5] {
    let mut values = [CAP + 1; 5];
    for goal in [4, 3, 2, 1, 0] {
        for way in ways_at(goals, goal) {
            let cost = way_cost(rt, alloc, way, goal + 1, &values);
            lower(&mut values, goal, cost);
        }
    }
    values
}

/// Kept goals have the costs of their places as bounds, and all goals are found at their costs.
fn is_carried(search: &mut Search, kept: &[Option<u32>], before: &[u64], after: &[u64]) -> bool {
    for goal in 0..5 {
        let bound = match place_at(kept, goal as usize) {
            Some(was) => value_at(before, was as usize),
            None => 0,
        };
        if search.table.bound(goal) != bound {
            return false;
        }
    }
    for goal in 0..5 {
        let cost = value_at(after, goal as usize);
        let found = if cost > CAP {
            Found::NotBelow
        } else {
            Found::Below(cost)
        };
        if search.find(goal, CAP + 1) != Some(Ok(found)) {
            return false;
        }
    }
    true
}

/// Five goals with the alternatives of the one seeds, solved, and carried to those of the others.
fn carries_right(
    rt: &impl Abort,
    alloc: Global,
    old: &[u64],
    new: &[u64],
    places: &[Option<u32>],
) -> bool {
    let before = random_goals(rt, alloc, old);
    let after = random_goals(rt, alloc, new);
    let kept = kept_places(rt, alloc, &after, &before, places);
    let old_costs = least_costs(rt, alloc, &before);
    let new_costs = least_costs(rt, alloc, &after);
    match carried_goals(rt, alloc, before, after, places) {
        Some(mut search) => is_carried(&mut search, kept.as_slice(), &old_costs, &new_costs),
        None => false,
    }
}

#[test]
fn what_is_carried_is_right(rt: HostRuntime) {
    let alloc = rt.alloc();
    let mut state = 88_172_645_463_325_252;
    for _ in 0..2000 {
        state = next(state);
        let old = seeds_of(&rt, alloc, state);
        let new = edited(&rt, alloc, old.as_slice(), state);
        let places = random_places(&rt, alloc, state);
        let right = carries_right(
            &rt,
            alloc,
            old.as_slice(),
            new.as_slice(),
            places.as_slice(),
        );
        assert!(rt; right, "{state}");
    }
}
