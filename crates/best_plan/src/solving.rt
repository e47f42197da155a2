// The plain search of all alternatives.
ghost use Rattle.std.specs.Prelude.{◌≡◌, ℕ, ◌+◌, ◌≤◌, ◌<◌, Bool, true, false, length, ◌⊎◌, Some, None, ⊤};
ghost use Rattle.pr_value.specs.Capped.{cap};
ghost use Rattle.best_plan.specs.Moves.{Graph, IsAlternative, IsUnfolded, IsAllUnfolded, IsLeast};
ghost use Rattle.best_plan.specs.Tables.{known, at_bounds, IsRight, Rises, KeepsOthers, KeepsUpper, Leaves, AllHold, IsDecided};
ghost use Rattle.best_plan.specs.Answers.{IsLeastOrPast, Tells, IsNext};

use crate::costs::{Best, better, cost_at_bounds};
use crate::moves::Moves;
use crate::table::Table;
use pr_value::CAP;

/// The least cost of the goal, or 10^18 + 1 where it reaches nothing. It takes no memory.
#[cycle(solve)]
pub fn solve<M: Moves>(moves: &M, table: &mut Table, goal: u32) -> u64
    requires right { IsRight (M.graph moves.now) (M.reaches moves.now) (known table.old) }
    requires there { goal < (M.graph moves.now).goals }
    requires unfolded { IsAllUnfolded (M.graph moves.now) }
    requires room { (M.graph moves.now).goals ≤ length table.old }
    ensures least { IsLeastOrPast (M.reaches moves.now) goal result }
    ensures right { IsRight (M.graph moves.now) (M.reaches moves.now) (known table.new) }
    ensures decided { IsDecided (known table.new) goal }
    ensures bound { (known table.new).bound goal ≡ result }
    ensures rises { Rises (known table.old) (known table.new) }
    ensures longer { length table.old ≤ length table.new }
    ensures others { let rank = M.rank moves.now in
        KeepsOthers (M.graph moves.now) rank (known table.old) (known table.new) goal }
{
    if is_decided(table, goal) {
        return table.bound(goal);
    }
    solve_undecided(moves, table, goal);
    table.bound(goal)
}

fn is_decided(table: &Table, goal: u32) -> bool
    ensures yes { result ≡ true → IsDecided (known table.now) goal }
    ensures bound { result ≡ false → (known table.now).bound goal ≤ cap }
    ensures choice { result ≡ false → (known table.now).choice goal ≡ None }
{
    if table.choice(goal).is_some() {
        return true;
    }
    table.bound(goal) > CAP
}

/// Tries each alternative once, in one pass, and enters what was found.
#[cycle(solve)]
fn solve_undecided<M: Moves>(moves: &M, table: &mut Table, goal: u32)
    requires right { IsRight (M.graph moves.now) (M.reaches moves.now) (known table.old) }
    requires there { goal < (M.graph moves.now).goals }
    requires unfolded { IsAllUnfolded (M.graph moves.now) }
    requires room { (M.graph moves.now).goals ≤ length table.old }
    requires low { (known table.old).bound goal ≤ cap }
    requires none { (known table.old).choice goal ≡ None }
    ensures decided { IsDecided (known table.new) goal }
    ensures leaves { let m = M.graph moves.now in
        let others = KeepsOthers m (M.rank moves.now) (known table.old) (known table.new) goal in
        Leaves ⊤ m (M.reaches moves.now) table.old table.new others }
{
    let mut best = Best {
        cost: CAP + 1,
        choice: None,
    };
    for k in 0..moves.count(goal) {
        best = tried(moves, table, goal, k, best);
    }
    table.put(goal, best.cost, best.choice);
}

/// The better of the best so far and the alternative's least cost.
#[cycle(solve)]
fn tried<M: Moves>(moves: &M, table: &mut Table, goal: u32, k: usize, best: Best) -> Best
    requires right { IsRight (M.graph moves.now) (M.reaches moves.now) (known table.old) }
    requires unfolded { IsAllUnfolded (M.graph moves.now) }
    requires room { (M.graph moves.now).goals ≤ length table.old }
    requires alternative { IsAlternative (M.graph moves.now) goal k }
    requires limit { best.cost ≤ cap + 1 }
    ensures past { let a = (M.graph moves.now).alternative goal k in
        result.cost ≤ at_bounds (known table.new) a }
    ensures next { IsNext (M.graph moves.now) (known table.new) goal k best result }
    ensures leaves { let m = M.graph moves.now in
        let upper = KeepsUpper m (M.rank moves.now) (known table.old) (known table.new) goal in
        Leaves ⊤ m (M.reaches moves.now) table.old table.new upper }
{
    if inputs_solved(moves, table, goal, k) {
        better(best, k, cost_at_bounds(moves, table, goal, k))
    } else {
        best
    }
}

/// Solves the alternative's inputs, as long as each reaches something.
#[cycle(solve)]
fn inputs_solved<M: Moves>(moves: &M, table: &mut Table, goal: u32, k: usize) -> bool
    requires right { IsRight (M.graph moves.now) (M.reaches moves.now) (known table.old) }
    requires unfolded { IsAllUnfolded (M.graph moves.now) }
    requires room { (M.graph moves.now).goals ≤ length table.old }
    requires alternative { IsAlternative (M.graph moves.now) goal k }
    ensures found { let a = (M.graph moves.now).alternative goal k in let t = known table.new in
        Tells (AllHold t a.inputs) t a (cap + 1) result }
    ensures leaves { let m = M.graph moves.now in
        let upper = KeepsUpper m (M.rank moves.now) (known table.old) (known table.new) goal in
        Leaves ⊤ m (M.reaches moves.now) table.old table.new upper }
{
    let n = moves.input_count(goal, k);
    for i in 0..n {
        let input = moves.input(goal, k, i);
        let cost = solve(moves, table, input);
        if cost > CAP {
            return false;
        }
    }
    true
}
