// The best solutions of a goal, from those of the goals that it leads to.
ghost use Rattle.std.specs.Prelude.{◌≡◌, ℕ, ◌+◌, ◌≤◌, ◌<◌, ◌^◌, length, slice_get, Some, OnOk, IfOk};
ghost use Rattle.best_plan.specs.Moves.{IsAlternative, IsUnfolded};
ghost use Rattle.best_plan.specs.Solutions.{AreSound};
ghost use Rattle.k_best.specs.BestLists.{IsBestList, AllLedUnfolded};
ghost use Rattle.k_best.specs.Lists.{AreRight, IsDone};
ghost use Rattle.k_best.specs.Picks.{ArePicks, AllDone, HasCheapest};

use crate::choosing::chosen_from;
use crate::faces::Faces;
use crate::lists::{Lists, Span, no_lists};
use crate::picking::cheapest;
use crate::putting::put;
use best_plan::Solution;
use pr_value::{Items, Memory};
use std::alloc::Global;

/// Solutions, and the places of those that were chosen, the cheapest first.
#[derive(Drop)]
pub struct Listed {
    pub solutions: Items<Solution>,
    pub chosen: Items<usize>,
}

/// The cheapest solutions of the goal, at most so many, of which no two show the same. Which of
/// equally cheap ones are chosen, and their order among each other, is not said.
pub fn best_of<M: Faces>(alloc: Global, moves: &M, goal: u32, most: usize) -> Result<Listed, Memory>
    requires there { goal < (M.graph moves.now).goals }
    requires unfolded { AllLedUnfolded (M.graph moves.now) goal }
    requires some { 1 ≤ most }
    ensures sound { IfOk result (λ l. AreSound (M.graph moves.now) l.solutions) }
    ensures best { let m = M.graph moves.now in
        IfOk result (λ l. IsBestList m (M.face moves.now) goal most l.solutions l.chosen) }
{
    let mut lists = no_lists(alloc, moves.goals())?;
    visit(alloc, moves, &mut lists, goal, most)?;
    let chosen = places(alloc, lists.span(goal))?;
    let Lists {
        solutions,
        labels: _,
        spans: _,
        index: _,
    } = lists;
    Ok(Listed { solutions, chosen })
}

fn places(alloc: Global, span: Span) -> Result<Items<usize>, Memory>
    requires { span.start + span.count < 2 ^ 64 }
    ensures long { IfOk result (λ r. length r ≡ span.count) }
    ensures each { IfOk result (λ r.
        (i : ℕ) → i < span.count → slice_get r i ≡ Some (span.start + i)) }
{
    let mut places = Items::new(alloc);
    for i in 0..span.count {
        places.push(span.start + i)?;
    }
    Ok(places)
}

/// Finds the goal's list, after those of its alternatives' inputs.
#[cycle(visit)]
fn visit<M: Faces>(
    alloc: Global,
    moves: &M,
    lists: &mut Lists,
    goal: u32,
    most: usize,
) -> Result<(), Memory>
    requires right { AreRight (M.graph moves.now) (M.face moves.now) most lists.old }
    requires room { length lists.old.spans ≡ (M.graph moves.now).goals }
    requires there { goal < (M.graph moves.now).goals }
    requires unfolded { AllLedUnfolded (M.graph moves.now) goal }
    requires some { 1 ≤ most }
    ensures right { OnOk result (AreRight (M.graph moves.now) (M.face moves.now) most lists.new) }
    ensures room { OnOk result (length lists.new.spans ≡ (M.graph moves.now).goals) }
    ensures kept { OnOk result ((h : ℕ) → IsDone lists.old.spans h → IsDone lists.new.spans h) }
    ensures done { OnOk result (IsDone lists.new.spans goal) }
{
    if lists.is_done(goal) {
        return Ok(());
    }
    for k in 0..moves.count(goal) {
        visit_inputs(alloc, moves, lists, goal, k, most)?;
    }
    list(alloc, moves, lists, goal, most)
}

/// Finds the lists of the alternative's inputs.
#[cycle(visit)]
fn visit_inputs<M: Faces>(
    alloc: Global,
    moves: &M,
    lists: &mut Lists,
    goal: u32,
    k: usize,
    most: usize,
) -> Result<(), Memory>
    requires right { AreRight (M.graph moves.now) (M.face moves.now) most lists.old }
    requires room { length lists.old.spans ≡ (M.graph moves.now).goals }
    requires alternative { IsAlternative (M.graph moves.now) goal k }
    requires unfolded { AllLedUnfolded (M.graph moves.now) goal }
    requires some { 1 ≤ most }
    ensures right { OnOk result (AreRight (M.graph moves.now) (M.face moves.now) most lists.new) }
    ensures room { OnOk result (length lists.new.spans ≡ (M.graph moves.now).goals) }
    ensures kept { OnOk result ((h : ℕ) → IsDone lists.old.spans h → IsDone lists.new.spans h) }
    ensures done { OnOk result (AllDone (M.graph moves.now) lists.new goal k) }
{
    for i in 0..moves.input_count(goal, k) {
        let input = moves.input(goal, k, i);
        visit(alloc, moves, lists, input, most)?;
    }
    Ok(())
}

/// Finds the goal's list, where those of its alternatives' inputs are there.
fn list<M: Faces>(
    alloc: Global,
    moves: &M,
    lists: &mut Lists,
    goal: u32,
    most: usize,
) -> Result<(), Memory>
    requires right { AreRight (M.graph moves.now) (M.face moves.now) most lists.old }
    requires room { length lists.old.spans ≡ (M.graph moves.now).goals }
    requires unfolded { IsUnfolded (M.graph moves.now) goal }
    requires some { 1 ≤ most }
    requires done { let m = M.graph moves.now in
        (k : ℕ) → k < m.count goal → AllDone m lists.old goal k }
    ensures right { OnOk result (AreRight (M.graph moves.now) (M.face moves.now) most lists.new) }
    ensures room { OnOk result (length lists.new.spans ≡ (M.graph moves.now).goals) }
    ensures kept { OnOk result ((h : ℕ) → IsDone lists.old.spans h → IsDone lists.new.spans h) }
    ensures done { OnOk result (IsDone lists.new.spans goal) }
{
    let pool = pool_of(alloc, moves, lists, goal, most)?;
    let chosen = chosen_from(alloc, moves, lists, goal, pool.as_slice(), most)?;
    put(moves, lists, goal, chosen, most)
}

/// The cheapest solutions of each of the goal's alternatives.
fn pool_of<M: Faces>(
    alloc: Global,
    moves: &M,
    lists: &Lists,
    goal: u32,
    most: usize,
) -> Result<Items<Solution>, Memory>
    requires right { AreRight (M.graph moves.now) (M.face moves.now) most lists.now }
    requires unfolded { IsUnfolded (M.graph moves.now) goal }
    requires some { 1 ≤ most }
    requires done { let m = M.graph moves.now in
        (k : ℕ) → k < m.count goal → AllDone m lists.now goal k }
    ensures picks { IfOk result (ArePicks (M.graph moves.now) lists.now goal) }
    ensures each { let m = M.graph moves.now in IfOk result (λ ps. (k : ℕ) → k < m.count goal
        → HasCheapest m (M.face moves.now) most lists.now goal ps k) }
{
    let mut pool = Items::new(alloc);
    for k in 0..moves.count(goal) {
        let taken = cheapest(alloc, moves, lists, goal, k, most)?;
        pool.append(taken)?;
    }
    Ok(pool)
}
