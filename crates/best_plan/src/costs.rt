// What alternatives cost with their inputs at their bounds.
ghost use Rattle.std.specs.Prelude.{◌≡◌, ℕ, ◌+◌, ◌≤◌, ◌<◌, true, false, List, length, take, map, slice_set, Some, None, IfSome, ◌⊎◌};
ghost use Rattle.std.specs.List.{AllByRecursion};
ghost use Rattle.pr_value.specs.Capped.{cap};
ghost use Rattle.best_plan.specs.Moves.{Graph, IsUnfolded, IsAlternative};
ghost use Rattle.best_plan.specs.Tables.{known, at_bounds, past_cap};
ghost use Rattle.best_plan.specs.Answers.{IsLowest};

use crate::moves::Choices;
use crate::table::Table;
use pr_value::{CAP, bisect};

/// Some input reaches nothing, by its bound.
fn is_past_cap<M: Choices>(moves: &M, table: &Table, goal: u32, k: usize) -> bool
    requires alternative { IsAlternative (M.graph moves.now) goal k }
    ensures { let a = (M.graph moves.now).alternative goal k in
        result ≡ past_cap (known table.now) a.inputs }
{
    let n = moves.input_count(goal, k);
    for i in 0..n {
        if table.bound(moves.input(goal, k, i)) > CAP {
            return true;
        }
    }
    false
}

/// The bounds of the inputs.
fn bounds_of<M: Choices>(moves: &M, table: &Table, goal: u32, k: usize) -> [u64; 4]
    requires alternative { IsAlternative (M.graph moves.now) goal k }
    ensures long { length result ≡ 4 }
    ensures bounds { let a = (M.graph moves.now).alternative goal k in
        take (length a.inputs) result ≡ map (known table.now).bound a.inputs }
{
    let n = moves.input_count(goal, k);
    let mut bounds = [0; 4];
    for i in 0..n {
        bounds[i] = table.bound(moves.input(goal, k, i));
    }
    bounds
}

/// What the alternative costs with its inputs at their bounds.
pub fn cost_at_bounds<M: Choices>(moves: &M, table: &Table, goal: u32, k: usize) -> u64
    requires alternative { IsAlternative (M.graph moves.now) goal k }
    ensures { result ≡ at_bounds (known table.now) ((M.graph moves.now).alternative goal k) }
{
    if is_past_cap(moves, table, goal, k) {
        return CAP + 1;
    }
    let n = moves.input_count(goal, k);
    let bounds = bounds_of(moves, table, goal, k);
    moves.cost(goal, k, &bounds[..n])
}

/// The least cost of the input at place i at which the alternative costs at least the limit, with
/// its other inputs at their bounds, or 10^18 + 1 where there is none.
pub fn input_limit<M: Choices>(
    moves: &M,
    table: &Table,
    goal: u32,
    k: usize,
    i: usize,
    limit: u64,
) -> u64
    requires alternative { IsAlternative (M.graph moves.now) goal k }
    requires place { i < length ((M.graph moves.now).alternative goal k).inputs }
    requires within { let a = (M.graph moves.now).alternative goal k in
        past_cap (known table.now) a.inputs ≡ false }
    ensures within { result ≤ cap + 1 }
    ensures below { let a = (M.graph moves.now).alternative goal k in
        let bounds = map (known table.now).bound a.inputs in
        (x : ℕ) → x < result → a.cost (slice_set bounds i x) < limit }
    ensures at { let a = (M.graph moves.now).alternative goal k in
        let bounds = map (known table.now).bound a.inputs in
        result ≤ cap → limit ≤ a.cost (slice_set bounds i result) }
{
    let n = moves.input_count(goal, k);
    let bounds = bounds_of(moves, table, goal, k);
    let cost = |x: u64| -> u64
        requires { (x ≤ cap) × (i < n) × (n ≤ 4) × (length bounds ≡ 4)
            × IsAlternative (M.graph moves.now) goal k
            × (n ≡ length ((M.graph moves.now).alternative goal k).inputs)
            × AllByRecursion (λ c. c ≤ cap) (take n bounds) }
        ensures { let a = (M.graph moves.entry.now).alternative goal k in
            result ≡ a.cost (take n (slice_set bounds i x)) }
    {
        let mut with = bounds;
        with[i] = x;
        moves.cost(goal, k, &with[..n])
    };
    bisect(0, CAP, limit, &cost)
}

/// A least cost so far, and the alternative that has it, if one does.
#[derive(Clone, Copy)]
pub struct Best {
    pub cost: u64,
    pub choice: Option<usize>,
}

pub fn better(now: Best, k: usize, cost: u64) -> Best
    ensures takes { cost < now.cost → result ≡ record { cost = cost; choice = Some k } }
    ensures keeps { now.cost ≤ cost → result ≡ now }
{
    if cost < now.cost {
        Best {
            cost,
            choice: Some(k),
        }
    } else {
        now
    }
}

/// The alternative, if it costs less than the limit.
pub fn choice_below(least: Best, limit: u64) -> Option<usize>
    ensures some { IfSome result (λ k. (least.choice ≡ Some k) × (least.cost < limit)) }
    ensures none { result ≡ None → (limit ≤ least.cost) ⊎ (least.choice ≡ None) }
{
    if least.cost < limit {
        least.choice
    } else {
        None
    }
}

/// An alternative that costs least with inputs at their bounds: one pass over all.
pub fn lowest<M: Choices>(moves: &M, table: &Table, goal: u32) -> Best
    requires unfolded { IsUnfolded (M.graph moves.now) goal }
    ensures { IsLowest (M.graph moves.now) (known table.now) goal result }
{
    let mut best = Best {
        cost: CAP + 1,
        choice: None,
    };
    for k in 0..moves.count(goal) {
        best = better(best, k, cost_at_bounds(moves, table, goal, k));
    }
    best
}
