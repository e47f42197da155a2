// Inputs of an alternative, as places of its inputs' lists.
ghost use Rattle.std.specs.Prelude.{◌≡◌, ℕ, ◌+◌, ◌<◌, ◌^◌, length, map, slice_index, true, false, IfOk, ◌≤◌};
ghost use Rattle.std.specs.List.{AllByRecursion};
ghost use Rattle.pr_value.specs.Capped.{cap};
ghost use Rattle.best_plan.specs.Moves.{IsAlternative};
ghost use Rattle.k_best.specs.Lists.{AreWithin, span_at, cost_at};
ghost use Rattle.k_best.specs.Picks.{raise, cost_from};

use crate::faces::Faces;
use crate::lists::Lists;
use pr_value::{Items, Memory};
use std::alloc::Global;

/// Whether each is a place of its input's list.
pub fn are_within<M: Faces>(moves: &M, lists: &Lists, goal: u32, k: usize, inputs: &[usize]) -> bool
    requires alternative { IsAlternative (M.graph moves.now) goal k }
    ensures yes { let gs = ((M.graph moves.now).alternative goal k).inputs in
        result ≡ true → AreWithin lists.now.spans gs inputs.now }
    ensures no { let gs = ((M.graph moves.now).alternative goal k).inputs in
        result ≡ false → AreWithin lists.now.spans gs inputs.now → ⊥ }
{
    if inputs.len() != moves.input_count(goal, k) {
        return false;
    }
    for (i, at) in inputs.iter().enumerate() {
        let span = lists.span(moves.input(goal, k, i));
        if *at < span.start || *at - span.start >= span.count {
            return false;
        }
    }
    true
}

/// What the alternative costs from the solutions at these places.
pub fn cost_of<M: Faces>(
    alloc: Global,
    moves: &M,
    lists: &Lists,
    goal: u32,
    k: usize,
    inputs: &[usize],
) -> Result<u64, Memory>
    requires alternative { IsAlternative (M.graph moves.now) goal k }
    requires each { length inputs.now ≡ length ((M.graph moves.now).alternative goal k).inputs }
    requires capped { (at : ℕ) → cost_at lists.now.solutions at ≤ cap }
    ensures { IfOk result (λ c. c ≡ cost_from (M.graph moves.now) lists.now goal k inputs.now) }
{
    let mut costs = Vec::new(alloc);
    for at in inputs {
        costs.push(lists.cost(*at))?;
    }
    Ok(moves.cost(goal, k, &costs))
}

/// The first place of each input's list.
pub fn starts<M: Faces>(
    alloc: Global,
    moves: &M,
    lists: &Lists,
    goal: u32,
    k: usize,
) -> Result<Items<usize>, Memory>
    requires alternative { IsAlternative (M.graph moves.now) goal k }
    ensures { let gs = ((M.graph moves.now).alternative goal k).inputs in
        IfOk result (λ r. r ≡ map (λ g. (span_at lists.now.spans g).start) gs) }
{
    let mut starts = Items::new(alloc);
    for i in 0..moves.input_count(goal, k) {
        starts.push(lists.span(moves.input(goal, k, i)).start)?;
    }
    Ok(starts)
}

/// The same places but for one, which is the place behind.
pub fn raised(alloc: Global, inputs: &[usize], j: usize) -> Result<Items<usize>, Memory>
    requires place { j < length inputs.now }
    requires room { slice_index inputs.now j + 1 < 2 ^ 64 }
    ensures { IfOk result (λ r. r ≡ raise inputs.now j) }
{
    let mut places = Items::from_slice(alloc, inputs)?;
    places.set(j, inputs[j] + 1);
    Ok(places)
}
