// The search under limits.
ghost use Rattle.std.specs.Prelude.{◌≡◌, ◌≢◌, ℕ, ◌+◌, ◌≤◌, ◌<◌, true, false, List, length, Option, Some, None, Result, Ok, Err, OnOk, OnErr, IfOk, IfSome, IsOk, ◌⊎◌, slice_get};
ghost use Rattle.pr_value.specs.Capped.{cap};
ghost use Rattle.best_plan.specs.Moves.{Graph, IsUnfolded, IsAlternative};
ghost use Rattle.best_plan.specs.Tables.{known, at_bounds, with_room, IsRight, Rises, KeepsOthers, KeepsUpper, Leaves, AllHold, HoldsSolution, past_cap};
ghost use Rattle.best_plan.specs.declared.searching.Found.TheVariants as found;
ghost use Rattle.best_plan.specs.Answers.{Answers, IsSettled, AllCost, IsNotBelowOrMemory, Tells, IsNext};

use crate::costs::{Best, better, choice_below, cost_at_bounds, input_limit, lowest};
use crate::moves::{Moves, UnfoldError};
use crate::table::Table;

/// What a goal costs, as far as a limit lets one know.
#[derive(Clone, Copy, PartialEq, Eq, Debug)]
pub enum Found {
    /// The least cost that the goal reaches; it is below the limit.
    Below(u64),
    /// The goal reaches no cost below the limit.
    NotBelow,
}

/// Why a search ended without an answer. The table is still right for the moves, which may have
/// unfolded goals.
#[derive(Clone, Copy, PartialEq, Eq, Debug)]
pub enum FindError {
    /// There was not enough memory.
    Memory,
    /// There are more goals than are allowed.
    GoalsFull,
}

/// The least cost of the goal, if it is below the limit, which goes to 10^18 + 1. It unfolds a goal
/// only when it needs the goal's alternatives. After `Below` the goal holds a solution of that
/// cost, and after `NotBelow` its bound is at least the limit, so that a later call under another
/// limit goes on from there.
#[cycle(find)]
pub fn find<M: Moves>(
    moves: &mut M,
    table: &mut Table,
    goal: u32,
    limit: u64,
) -> Result<Found, FindError>
    requires right { IsRight (M.graph moves.old) (M.reaches moves.old) (known table.old) }
    requires there { goal < (M.graph moves.old).goals }
    requires limit { limit ≤ cap + 1 }
    ensures found { IfOk result (Answers (M.reaches moves.old) (known table.new) goal limit) }
    ensures right { IsRight (M.graph moves.new) (M.reaches moves.new) (known table.new) }
    ensures later { M.later moves.old moves.new }
    ensures full { result ≡ Err FindError.GoalsFull → M.over moves.old }
    ensures settled { IsSettled (known table.old) goal limit
        → IsOk result × (moves.new ≡ moves.old) × (table.new ≡ table.old) }
    ensures lazy { IsUnfolded (M.graph moves.old) goal → (known table.old).choice goal ≡ None
        → AllCost (M.graph moves.old) (known table.old) goal limit
        → IsNotBelowOrMemory result × (moves.new ≡ moves.old) }
    ensures rises { Rises (known table.old) (known table.new) }
    ensures longer { length table.old ≤ length table.new }
    ensures others { let rank = M.rank moves.old in
        KeepsOthers (M.graph moves.old) rank (known table.old) (known table.new) goal }
{
    if table.choice(goal).is_some() {
        return Ok(found_at(table.bound(goal), limit));
    }
    if table.bound(goal) >= limit {
        return Ok(Found::NotBelow);
    }
    open(moves, goal)?;
    room(table, moves.goals())?;
    search(moves, table, goal, limit)
}

fn found_at(cost: u64, limit: u64) -> Found
    ensures below { cost < limit → result ≡ found.Below cost }
    ensures not_below { limit ≤ cost → result ≡ found.NotBelow }
{
    if cost < limit {
        Found::Below(cost)
    } else {
        Found::NotBelow
    }
}

/// Unfolds the goal where it is not.
fn open<M: Moves>(moves: &mut M, goal: u32) -> Result<(), FindError>
    requires there { goal < (M.graph moves.old).goals }
    ensures later { M.later moves.old moves.new }
    ensures unfolded { OnOk result ((M.graph moves.new).unfolded goal ≡ true) }
    ensures full { result ≡ Err FindError.GoalsFull → M.over moves.old }
    ensures same { (M.graph moves.old).unfolded goal ≡ true
        → IsOk result × (moves.new ≡ moves.old) }
{
    if moves.unfolded(goal) {
        return Ok(());
    }
    match moves.unfold(goal) {
        Ok(()) => Ok(()),
        Err(UnfoldError::Memory) => Err(FindError::Memory),
        Err(UnfoldError::GoalsFull) => Err(FindError::GoalsFull),
    }
}

/// Makes room for that many goals.
fn room(table: &mut Table, goals: u32) -> Result<(), FindError>
    ensures ok { OnOk result (table.new ≡ with_room table.old goals) }
    ensures err { OnErr result (table.new ≡ table.old) }
    ensures memory { result ≢ Err FindError.GoalsFull }
{
    match table.reserve(goals) {
        Ok(()) => Ok(()),
        Err(_) => Err(FindError::Memory),
    }
}

/// Tries alternatives as long as one may cost less than the limit and than the least found.
#[cycle(find)]
fn search<M: Moves>(
    moves: &mut M,
    table: &mut Table,
    goal: u32,
    limit: u64,
) -> Result<Found, FindError>
    requires right { IsRight (M.graph moves.old) (M.reaches moves.old) (known table.old) }
    requires unfolded { IsUnfolded (M.graph moves.old) goal }
    requires room { goal < length table.old }
    requires none { (known table.old).choice goal ≡ None }
    requires low { (known table.old).bound goal ≤ limit }
    requires limit { limit ≤ cap + 1 }
    ensures found { IfOk result (Answers (M.reaches moves.old) (known table.new) goal limit) }
    ensures leaves { let m = M.graph moves.old in
        let others = KeepsOthers m (M.rank moves.old) (known table.old) (known table.new) goal in
        let later = M.later moves.old moves.new in
        Leaves later (M.graph moves.new) (M.reaches moves.new) table.old table.new others }
    ensures full { result ≡ Err FindError.GoalsFull → M.over moves.old }
    ensures lazy { AllCost (M.graph moves.old) (known table.old) goal limit
        → IsNotBelowOrMemory result × (moves.new ≡ moves.old) }
{
    let mut best = Best {
        cost: limit,
        choice: None,
    };
    let mut least = lowest(moves, table, goal);
    // Each pass over the alternatives but the first comes after one that was tried, so there is
    // one pass more than alternatives that were tried. None is tried twice: once it was, its cost
    // at bounds is no less than the best, which only falls while bounds only rise.
    while let Some(k) = choice_below(least, best.cost) {
        best = attempt(moves, table, goal, k, best)?;
        least = lowest(moves, table, goal);
    }
    table.put(goal, final_bound(best, least), best.choice);
    Ok(answer(best))
}

/// The cost of the solution that was found, or else the least that any alternative may cost.
fn final_bound(best: Best, least: Best) -> u64
    requires past { best.cost ≤ least.cost }
    requires capped { least.cost ≤ cap + 1 }
    ensures stays { best.cost ≤ result }
    ensures covered { result ≤ least.cost }
    ensures solved { IfSome best.choice (λ k. result ≡ best.cost) }
{
    match best.choice {
        Some(_) => best.cost,
        None => least.cost,
    }
}

fn answer(best: Best) -> Found
    ensures some { (k : ℕ) → best.choice ≡ Some k → result ≡ found.Below best.cost }
    ensures none { best.choice ≡ None → result ≡ found.NotBelow }
{
    match best.choice {
        Some(_) => Found::Below(best.cost),
        None => Found::NotBelow,
    }
}

/// The better of the best so far and the alternative's least cost.
#[cycle(find)]
fn attempt<M: Moves>(
    moves: &mut M,
    table: &mut Table,
    goal: u32,
    k: usize,
    best: Best,
) -> Result<Best, FindError>
    requires right { IsRight (M.graph moves.old) (M.reaches moves.old) (known table.old) }
    requires alternative { IsAlternative (M.graph moves.old) goal k }
    requires limit { best.cost ≤ cap + 1 }
    ensures past { let a = (M.graph moves.old).alternative goal k in
        IfOk result (λ b. b.cost ≤ at_bounds (known table.new) a) }
    ensures next { IfOk result (IsNext (M.graph moves.old) (known table.new) goal k best) }
    ensures leaves { let m = M.graph moves.old in
        let upper = KeepsUpper m (M.rank moves.old) (known table.old) (known table.new) goal in
        let later = M.later moves.old moves.new in
        Leaves later (M.graph moves.new) (M.reaches moves.new) table.old table.new upper }
    ensures full { result ≡ Err FindError.GoalsFull → M.over moves.old }
{
    if inputs_found(moves, table, goal, k, best.cost)? {
        Ok(better(best, k, cost_at_bounds(moves, table, goal, k)))
    } else {
        Ok(best)
    }
}

/// Looks for the least costs of the alternative's inputs, from the first on, as long as it may cost
/// less than the limit.
#[cycle(find)]
fn inputs_found<M: Moves>(
    moves: &mut M,
    table: &mut Table,
    goal: u32,
    k: usize,
    limit: u64,
) -> Result<bool, FindError>
    requires right { IsRight (M.graph moves.old) (M.reaches moves.old) (known table.old) }
    requires alternative { IsAlternative (M.graph moves.old) goal k }
    requires limit { limit ≤ cap + 1 }
    ensures found { let a = (M.graph moves.old).alternative goal k in let t = known table.new in
        IfOk result (Tells (AllHold t a.inputs) t a limit) }
    ensures leaves { let m = M.graph moves.old in
        let upper = KeepsUpper m (M.rank moves.old) (known table.old) (known table.new) goal in
        let later = M.later moves.old moves.new in
        Leaves later (M.graph moves.new) (M.reaches moves.new) table.old table.new upper }
    ensures full { result ≡ Err FindError.GoalsFull → M.over moves.old }
{
    let n = moves.input_count(goal, k);
    for i in 0..n {
        if cost_at_bounds(moves, table, goal, k) >= limit {
            return Ok(false);
        }
        if !input_found(moves, table, goal, k, i, limit)? {
            return Ok(false);
        }
    }
    Ok(true)
}

/// Looks for the least cost of an input, below the limit from which on the alternative costs at
/// least that much.
#[cycle(find)]
fn input_found<M: Moves>(
    moves: &mut M,
    table: &mut Table,
    goal: u32,
    k: usize,
    i: usize,
    limit: u64,
) -> Result<bool, FindError>
    requires right { IsRight (M.graph moves.old) (M.reaches moves.old) (known table.old) }
    requires alternative { IsAlternative (M.graph moves.old) goal k }
    requires limit { limit ≤ cap + 1 }
    requires place { i < length ((M.graph moves.old).alternative goal k).inputs }
    requires within { let a = (M.graph moves.old).alternative goal k in
        past_cap (known table.old) a.inputs ≡ false }
    ensures found { let a = (M.graph moves.old).alternative goal k in let t = known table.new in
        let held = (x : ℕ) → slice_get a.inputs i ≡ Some x → HoldsSolution t x in
        IfOk result (Tells held t a limit) }
    ensures leaves { let m = M.graph moves.old in
        let upper = KeepsUpper m (M.rank moves.old) (known table.old) (known table.new) goal in
        let later = M.later moves.old moves.new in
        Leaves later (M.graph moves.new) (M.reaches moves.new) table.old table.new upper }
    ensures full { result ≡ Err FindError.GoalsFull → M.over moves.old }
{
    let input = moves.input(goal, k, i);
    let most = input_limit(moves, table, goal, k, i, limit);
    match find(moves, table, input, most)? {
        Found::Below(_) => Ok(true),
        Found::NotBelow => Ok(false),
    }
}
