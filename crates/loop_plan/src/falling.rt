// From the goals that a root leads to on, until no value falls any more.
ghost use Rattle.std.specs.Prelude.{◌≡◌, ℕ, ◌+◌, ◌≤◌, ◌<◌, ◌≢◌, true, false, length, Err, IfOk};
ghost use Rattle.pr_value.specs.Capped.{cap};
ghost use Rattle.best_plan.specs.Moves.{IsAlternative};
ghost use Rattle.loop_plan.specs.Fallen.{IsFallen};
ghost use Rattle.loop_plan.specs.Reached.{IsReached, bound};
ghost use Rattle.loop_plan.specs.Uses.{IsUses};
ghost use Rattle.loop_plan.specs.Waiting.{note};
ghost use Rattle.best_plan.specs.Tables.{known};
ghost use Rattle.std.specs.List.{Contains};

use crate::falls::Falls;
use crate::lowering::{lower_all, note};
use crate::note::Note;
use crate::reached::{Reached, reach};
use crate::uses::Uses;
use crate::way::Way;
use best_plan::{Choices, FindError};
use pr_value::Memory;
use std::alloc::Global;
use std::collections::BinaryHeap;

/// Unfolds all goals that the root leads to, and lowers their values, from 10^18 + 1 on, as long as
/// some alternative costs less than its goal's value, with its inputs at their values. There may be
/// no end of goals.
pub fn fall<C: Choices>(alloc: Global, choices: &mut C, root: u32) -> Result<Falls, FindError>
    requires there { root < (C.graph choices.old).goals }
    ensures falls { IfOk result (IsFallen (C.graph choices.new) root) }
    ensures later { C.later choices.old choices.new }
    ensures full { result ≡ Err FindError.GoalsFull → C.over choices.old }
{
    let reached = reach(alloc, choices, root)?;
    match settle(alloc, choices, reached) {
        Ok(falls) => Ok(falls),
        Err(_) => Err(FindError::Memory),
    }
}

/// Looks again at the alternatives of which an input fell, as long as there are any.
fn settle<C: Choices>(alloc: Global, choices: &C, reached: Reached) -> Result<Falls, Memory>
    requires reached { IsReached (C.graph choices.now) reached (length reached.ways) }
    requires root { bound reached reached.root ≡ cap + 1 }
    ensures { IfOk result (IsFallen (C.graph choices.now) reached.root) }
{
    let Reached { table, ways, .. } = reached;
    let uses = uses_of(alloc, choices, ways.as_slice())?;
    let mut falls = Falls::new(alloc, table);
    let mut work = BinaryHeap::new(alloc);
    lower_all(alloc, choices, &mut falls, &mut work, ways.as_slice())?;
    while let Some(fell) = work.pop() {
        if is_present(&falls, fell) {
            lower_all(alloc, choices, &mut falls, &mut work, uses.of(fell.goal))?;
        }
    }
    Ok(falls)
}

/// Whether the goal has not fallen again since; it is noted once more where it has.
fn is_present(falls: &Falls, fell: Note) -> bool
    ensures present { result ≡ true → fell ≡ note (known falls.now.entries) fell.goal }
    ensures past { result ≡ false → fell ≢ note (known falls.now.entries) fell.goal }
{
    fell.below == note(falls, fell.goal).below
}

/// The alternatives that each goal is an input of, out of these.
fn uses_of<C: Choices>(alloc: Global, choices: &C, ways: &[Way]) -> Result<Uses, Memory>
    requires alternatives { (w : _) → Contains ways.now w
        → IsAlternative (C.graph choices.now) w.goal w.k }
    ensures { IfOk result (IsUses (C.graph choices.now) ways.now (length ways.now)) }
{
    let mut uses = Uses::new(alloc, choices.goals())?;
    for i in 0..ways.len() {
        let way = ways[i];
        for j in 0..choices.input_count(way.goal, way.k) {
            uses.add(choices.input(way.goal, way.k, j), way)?;
        }
    }
    Ok(uses)
}
