// A goal's list is entered.
ghost use Rattle.std.specs.Prelude.{◌≡◌, ℕ, ◌+◌, ◌≤◌, ◌<◌, ◌^◌, ◌++◌, length, OnOk};
ghost use Rattle.best_plan.specs.Moves.{IsAlternative, IsUnfolded};
ghost use Rattle.best_plan.specs.Solutions.{AreSound};
ghost use Rattle.k_best.specs.BestLists.{IsShown, IsBest};
ghost use Rattle.k_best.specs.Showings.{shown, shown_at};
ghost use Rattle.k_best.specs.Indexes.{IsIndexed, mark_of};
ghost use Rattle.k_best.specs.Lists.{AreLabelled, IsLabel, AreRight, IsDone};
ghost use Rattle.k_best.specs.Picks.{ArePicks, AllDone, shown_of};

use crate::faces::Faces;
use crate::lists::{Lists, Span};
use crate::same::same;
use best_plan::Solution;
use pr_value::{Items, Memory};

/// The label of the first solution that has none yet. Those that show the same have its mark, and
/// so are of one chain.
fn label_of<M: Faces>(moves: &M, lists: &Lists, at: usize, mark: u64) -> usize
    requires sound { AreSound (M.graph moves.now) lists.now.solutions }
    requires labelled { AreLabelled (M.face moves.now) lists.now.solutions lists.now.labels }
    requires place { at < length lists.now.solutions }
    requires first { at ≡ length lists.now.labels }
    requires marked { length lists.now.index.marks ≡ length lists.now.labels }
    requires indexed { IsIndexed (shown (M.face moves.now) lists.now.solutions) lists.now.index }
    requires mark { let seen = shown (M.face moves.now) lists.now.solutions in
        mark ≡ mark_of (shown_at seen at) }
    ensures { IsLabel (M.face moves.now) lists.now.solutions lists.now.labels at result }
{
    let solutions = lists.solutions.as_slice();
    let mut next = lists.index.last(mark);
    while let Some(earlier) = next {
        if same(moves, lists, &solutions[earlier], &solutions[at]) {
            return lists.label(earlier);
        }
        next = lists.index.behind(earlier);
    }
    at
}

/// Gives a label to the first solution that has none.
fn put_label<M: Faces>(moves: &M, lists: &mut Lists, at: usize) -> Result<(), Memory>
    requires sound { AreSound (M.graph moves.now) lists.old.solutions }
    requires labelled { AreLabelled (M.face moves.now) lists.old.solutions lists.old.labels }
    requires place { at < length lists.old.solutions }
    requires first { at ≡ length lists.old.labels }
    requires marked { length lists.old.index.marks ≡ length lists.old.labels }
    requires indexed { IsIndexed (shown (M.face moves.now) lists.old.solutions) lists.old.index }
    ensures labelled { let f = M.face moves.now in
        OnOk result (AreLabelled f lists.new.solutions lists.new.labels) }
    ensures long { OnOk result (length lists.new.labels ≡ at + 1) }
    ensures marked { OnOk result (length lists.new.index.marks ≡ length lists.new.labels) }
    ensures indexed { let f = M.face moves.now in
        OnOk result (IsIndexed (shown f lists.new.solutions) lists.new.index) }
    ensures solutions { lists.new.solutions ≡ lists.old.solutions }
    ensures spans { lists.new.spans ≡ lists.old.spans }
{
    let solution = &lists.solutions.as_slice()[at];
    let mark = lists.index.solution_mark(moves, solution);
    let label = label_of(moves, lists, at, mark);
    lists.labels.push(label)?;
    lists.index.push(mark)?;
    Ok(())
}

/// Gives labels to the solutions that have none.
fn put_labels<M: Faces>(moves: &M, lists: &mut Lists) -> Result<(), Memory>
    requires sound { AreSound (M.graph moves.now) lists.old.solutions }
    requires labelled { AreLabelled (M.face moves.now) lists.old.solutions lists.old.labels }
    requires fewer { length lists.old.labels ≤ length lists.old.solutions }
    requires marked { length lists.old.index.marks ≡ length lists.old.labels }
    requires indexed { IsIndexed (shown (M.face moves.now) lists.old.solutions) lists.old.index }
    ensures labelled { let f = M.face moves.now in
        OnOk result (AreLabelled f lists.new.solutions lists.new.labels) }
    ensures long { OnOk result (length lists.new.labels ≡ length lists.new.solutions) }
    ensures short { OnOk result (length lists.new.solutions < 2 ^ 64) }
    ensures marked { OnOk result (length lists.new.index.marks ≡ length lists.new.labels) }
    ensures indexed { let f = M.face moves.now in
        OnOk result (IsIndexed (shown f lists.new.solutions) lists.new.index) }
    ensures solutions { lists.new.solutions ≡ lists.old.solutions }
    ensures spans { lists.new.spans ≡ lists.old.spans }
{
    for at in lists.labels.len()..lists.solutions.len() {
        put_label(moves, lists, at)?;
    }
    Ok(())
}

/// Enters the goal's best solutions as its list.
pub fn put<M: Faces>(
    moves: &M,
    lists: &mut Lists,
    goal: u32,
    chosen: Items<Solution>,
    most: usize,
) -> Result<(), Memory>
    requires right { AreRight (M.graph moves.now) (M.face moves.now) most lists.old }
    requires place { goal < length lists.old.spans }
    requires picks { ArePicks (M.graph moves.now) lists.old goal chosen }
    requires done { let m = M.graph moves.now in
        (k : ℕ) → k < m.count goal → AllDone m lists.old goal k }
    requires best { let f = M.face moves.now in
        IsBest (IsShown (M.graph moves.now) f goal) most (length chosen)
        (shown_at (shown_of f lists.old chosen)) }
    ensures right { OnOk result (AreRight (M.graph moves.now) (M.face moves.now) most lists.new) }
    ensures room { OnOk result (length lists.new.spans ≡ length lists.old.spans) }
    ensures kept { OnOk result ((h : ℕ) → IsDone lists.old.spans h → IsDone lists.new.spans h) }
    ensures done { OnOk result (IsDone lists.new.spans goal) }
{
    let start = lists.solutions.len();
    let count = chosen.len();
    lists.solutions.append(chosen)?;
    put_labels(moves, lists)?;
    lists.spans.set(goal as usize, Some(Span { start, count }));
    Ok(())
}
