// The cheapest solutions of one alternative.
ghost use Rattle.std.specs.Prelude.{◌≡◌, ℕ, ◌+◌, ◌≤◌, ◌<◌, ◌^◌, ◌-◌, length, map, true, false, slice_get, Option, Some, None, IfOk, IsSomeAnd, ◌⊎◌};
ghost use Rattle.pr_value.specs.Capped.{cap};
ghost use Rattle.best_plan.specs.Moves.{IsAlternative};
ghost use Rattle.k_best.specs.Lists.{AreWithin, AreRight, EndBy, cost_at};
ghost use Rattle.k_best.specs.Picks.{IsTaken, IsNew, IsNext, AreNear, AreTaken, AreCheapest, AllDone, HasFirst, OnlyFirst, AtMost, AtMostRaised, AtMostAll, cost_from};

use crate::faces::Faces;
use crate::inputs::{are_within, cost_of, raised, starts};
use crate::lists::Lists;
use best_plan::Solution;
use pr_value::{Items, Memory};
use std::alloc::Global;

fn is_taken(taken: &[Solution], inputs: &[usize]) -> bool
    ensures yes { result ≡ true → IsTaken taken.now inputs.now }
    ensures no { result ≡ false → IsTaken taken.now inputs.now → ⊥ }
{
    for solution in taken {
        if solution.inputs.as_slice() == inputs {
            return true;
        }
    }
    false
}

/// The cheaper of both.
fn cheaper(best: Option<Solution>, other: Solution) -> Option<Solution>
    ensures low { (c : ℕ) → AtMost best c → AtMost result c }
    ensures other { AtMost result other.cost }
    ensures one { (result ≡ best) ⊎ (result ≡ Some other) }
{
    match best {
        Some(solution) => {
            if solution.cost <= other.cost {
                Some(solution)
            } else {
                Some(other)
            }
        }
        None => Some(other),
    }
}

/// The cheaper of the best so far and of the solution from these inputs, if they are new.
fn tried<M: Faces>(
    alloc: Global,
    moves: &M,
    lists: &Lists,
    goal: u32,
    k: usize,
    taken: &[Solution],
    inputs: Items<usize>,
    best: Option<Solution>,
) -> Result<Option<Solution>, Memory>
    requires alternative { IsAlternative (M.graph moves.now) goal k }
    requires capped { (at : ℕ) → cost_at lists.now.solutions at ≤ cap }
    requires near { let places = length taken.now + 1 in
        AreNear (M.graph moves.now) lists.now goal k places inputs }
    requires best { IsNext (M.graph moves.now) lists.now goal k taken.now best }
    ensures next { IfOk result (IsNext (M.graph moves.now) lists.now goal k taken.now) }
    ensures one { IfOk result (λ r. (r ≡ best) ⊎ IsSomeAnd r (λ s. s.inputs ≡ inputs)) }
    ensures low { IfOk result (λ r. (c : ℕ) → AtMost best c → AtMost r c) }
    ensures new { let m = M.graph moves.now in IfOk result (λ r.
        IsNew m lists.now goal k taken.now inputs
        → AtMost r (cost_from m lists.now goal k inputs)) }
{
    if !are_within(moves, lists, goal, k, inputs.as_slice()) {
        return Ok(best);
    }
    if is_taken(taken, inputs.as_slice()) {
        return Ok(best);
    }
    let cost = cost_of(alloc, moves, lists, goal, k, inputs.as_slice())?;
    let solution = Solution {
        goal,
        k,
        inputs,
        cost,
    };
    Ok(cheaper(best, solution))
}

/// The cheaper of the best so far and of all new solutions from these inputs but one, which is the
/// place behind.
fn raises_tried<M: Faces>(
    alloc: Global,
    moves: &M,
    lists: &Lists,
    goal: u32,
    k: usize,
    taken: &[Solution],
    inputs: &[usize],
    so_far: Option<Solution>,
) -> Result<Option<Solution>, Memory>
    requires alternative { IsAlternative (M.graph moves.now) goal k }
    requires capped { (at : ℕ) → cost_at lists.now.solutions at ≤ cap }
    requires within { let gs = ((M.graph moves.now).alternative goal k).inputs in
        AreWithin lists.now.spans gs inputs.now }
    requires fits { EndBy lists.now.spans (2 ^ 64 - 1) }
    requires near { let places = length taken.now in
        AreNear (M.graph moves.now) lists.now goal k places inputs.now }
    requires best { IsNext (M.graph moves.now) lists.now goal k taken.now so_far }
    ensures next { IfOk result (IsNext (M.graph moves.now) lists.now goal k taken.now) }
    ensures low { IfOk result (λ r. (c : ℕ) → AtMost so_far c → AtMost r c) }
    ensures raised { let m = M.graph moves.now in let n = length inputs.now in
        IfOk result (λ r. AtMostRaised m lists.now goal k taken.now r inputs.now n) }
{
    let mut best = so_far;
    for j in 0..inputs.len() {
        let places = raised(alloc, inputs, j)?;
        best = tried(alloc, moves, lists, goal, k, taken, places, best)?;
    }
    Ok(best)
}

/// A cheapest of all new solutions whose inputs are those of one that was taken, but for one, which
/// is the place behind.
fn next<M: Faces>(
    alloc: Global,
    moves: &M,
    lists: &Lists,
    goal: u32,
    k: usize,
    taken: &[Solution],
) -> Result<Option<Solution>, Memory>
    requires alternative { IsAlternative (M.graph moves.now) goal k }
    requires capped { (at : ℕ) → cost_at lists.now.solutions at ≤ cap }
    requires fits { EndBy lists.now.spans (2 ^ 64 - 1) }
    requires taken { AreTaken (M.graph moves.now) lists.now goal k taken.now }
    ensures next { IfOk result (IsNext (M.graph moves.now) lists.now goal k taken.now) }
    ensures least { let m = M.graph moves.now in let n = length taken.now in
        IfOk result (λ r. AtMostAll m lists.now goal k taken.now r n) }
{
    let mut best = None;
    for solution in taken {
        let inputs = solution.inputs.as_slice();
        best = raises_tried(alloc, moves, lists, goal, k, taken, inputs, best)?;
    }
    Ok(best)
}

/// The solution from the first places of the inputs' lists, if each has a place.
fn first<M: Faces>(
    alloc: Global,
    moves: &M,
    lists: &Lists,
    goal: u32,
    k: usize,
) -> Result<Items<Solution>, Memory>
    requires alternative { IsAlternative (M.graph moves.now) goal k }
    requires capped { (at : ℕ) → cost_at lists.now.solutions at ≤ cap }
    ensures taken { IfOk result (AreTaken (M.graph moves.now) lists.now goal k) }
    ensures one { IfOk result (λ ps. length ps ≤ 1) }
    ensures first { let m = M.graph moves.now in IfOk result (HasFirst m lists.now goal k) }
    ensures only { let m = M.graph moves.now in IfOk result (OnlyFirst m lists.now goal k) }
{
    let mut taken = Items::new(alloc);
    let inputs = starts(alloc, moves, lists, goal, k)?;
    let first = tried(alloc, moves, lists, goal, k, taken.as_slice(), inputs, None)?;
    if let Some(solution) = first {
        taken.push(solution)?;
    }
    Ok(taken)
}

/// The cheapest solutions of the alternative, at most so many, each from other inputs.
pub fn cheapest<M: Faces>(
    alloc: Global,
    moves: &M,
    lists: &Lists,
    goal: u32,
    k: usize,
    most: usize,
) -> Result<Items<Solution>, Memory>
    requires alternative { IsAlternative (M.graph moves.now) goal k }
    requires right { AreRight (M.graph moves.now) (M.face moves.now) most lists.now }
    requires done { AllDone (M.graph moves.now) lists.now goal k }
    requires most { 0 < most }
    ensures taken { IfOk result (AreTaken (M.graph moves.now) lists.now goal k) }
    ensures cheapest { let m = M.graph moves.now in
        IfOk result (AreCheapest m (M.face moves.now) most lists.now goal k) }
{
    let mut taken = first(alloc, moves, lists, goal, k)?;
    while taken.len() < most {
        let found = next(alloc, moves, lists, goal, k, taken.as_slice())?;
        match found {
            Some(solution) => taken.push(solution)?,
            None => return Ok(taken),
        }
    }
    Ok(taken)
}
