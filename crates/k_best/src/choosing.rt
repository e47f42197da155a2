// The cheapest of many solutions, of which no two show the same.
ghost use Rattle.std.specs.Prelude.{◌≡◌, ℕ, ◌+◌, ◌<◌, length, true, false, IfOk};
ghost use Rattle.best_plan.specs.Moves.{IsUnfolded};
ghost use Rattle.k_best.specs.Lists.{AreLabelled, EndBy};
ghost use Rattle.k_best.specs.Picks.{IsPick, ArePicks, ShowsIn, AreChosen, IsCheapestNew};

use crate::faces::Faces;
use crate::lists::Lists;
use crate::same::same;
use best_plan::Solution;
use pr_value::{Items, Memory};
use std::alloc::Global;

/// Whether one of those that were chosen shows the same.
fn is_shown<M: Faces>(
    moves: &M,
    lists: &Lists,
    goal: u32,
    chosen: &[Solution],
    other: &Solution,
) -> bool
    requires labelled { AreLabelled (M.face moves.now) lists.now.solutions lists.now.labels }
    requires ends { EndBy lists.now.spans (length lists.now.labels) }
    requires chosen { ArePicks (M.graph moves.now) lists.now goal chosen.now }
    requires other { IsPick (M.graph moves.now) lists.now goal other.now }
    ensures yes { result ≡ true → ShowsIn (M.face moves.now) lists.now chosen.now other.now }
    ensures no { result ≡ false → ShowsIn (M.face moves.now) lists.now chosen.now other.now → ⊥ }
{
    for solution in chosen {
        if same(moves, lists, solution, other) {
            return true;
        }
    }
    false
}

/// The place of the cheaper of the best so far and of the next, if that shows something new.
fn cheaper_new<M: Faces>(
    moves: &M,
    lists: &Lists,
    goal: u32,
    pool: &[Solution],
    chosen: &[Solution],
    best: Option<usize>,
    i: usize,
) -> Option<usize>
    requires labelled { AreLabelled (M.face moves.now) lists.now.solutions lists.now.labels }
    requires ends { EndBy lists.now.spans (length lists.now.labels) }
    requires pool { ArePicks (M.graph moves.now) lists.now goal pool.now }
    requires chosen { ArePicks (M.graph moves.now) lists.now goal chosen.now }
    requires place { i < length pool.now }
    requires best { IsCheapestNew (M.face moves.now) lists.now pool.now chosen.now i best }
    ensures { let f = M.face moves.now in
        IsCheapestNew f lists.now pool.now chosen.now (i + 1) result }
{
    let next = &pool[i];
    if is_shown(moves, lists, goal, chosen, next) {
        return best;
    }
    match best {
        Some(at) => {
            if pool[at].cost <= next.cost {
                Some(at)
            } else {
                Some(i)
            }
        }
        None => Some(i),
    }
}

/// The place of a cheapest of those that show what none that was chosen shows.
fn cheapest_new<M: Faces>(
    moves: &M,
    lists: &Lists,
    goal: u32,
    pool: &[Solution],
    chosen: &[Solution],
) -> Option<usize>
    requires labelled { AreLabelled (M.face moves.now) lists.now.solutions lists.now.labels }
    requires ends { EndBy lists.now.spans (length lists.now.labels) }
    requires pool { ArePicks (M.graph moves.now) lists.now goal pool.now }
    requires chosen { ArePicks (M.graph moves.now) lists.now goal chosen.now }
    ensures { let f = M.face moves.now in
        IsCheapestNew f lists.now pool.now chosen.now (length pool.now) result }
{
    let mut best = None;
    for i in 0..pool.len() {
        best = cheaper_new(moves, lists, goal, pool, chosen, best, i);
    }
    best
}

fn copied(alloc: Global, solution: &Solution) -> Result<Solution, Memory>
    ensures { IfOk result (λ s. s ≡ solution.now) }
{
    let inputs = Items::from_slice(alloc, solution.inputs.as_slice())?;
    Ok(Solution {
        goal: solution.goal,
        k: solution.k,
        inputs,
        cost: solution.cost,
    })
}

/// The cheapest, at most so many, of which no two show the same.
pub fn chosen_from<M: Faces>(
    alloc: Global,
    moves: &M,
    lists: &Lists,
    goal: u32,
    pool: &[Solution],
    most: usize,
) -> Result<Items<Solution>, Memory>
    requires labelled { AreLabelled (M.face moves.now) lists.now.solutions lists.now.labels }
    requires ends { EndBy lists.now.spans (length lists.now.labels) }
    requires pool { ArePicks (M.graph moves.now) lists.now goal pool.now }
    ensures { IfOk result (AreChosen (M.face moves.now) most lists.now pool.now) }
{
    let mut chosen = Items::new(alloc);
    while chosen.len() < most {
        match cheapest_new(moves, lists, goal, pool, chosen.as_slice()) {
            Some(at) => chosen.push(copied(alloc, &pool[at])?)?,
            None => return Ok(chosen),
        }
    }
    Ok(chosen)
}
