// Falls by single alternatives, and by lists of them.
ghost use Rattle.std.specs.Prelude.{◌≡◌, ℕ, ◌+◌, ◌≤◌, ◌<◌, length, OnOk, IfOk};
ghost use Rattle.std.specs.List.{Contains};
ghost use Rattle.std.specs.BinaryHeap.{heap_items, heap_len};
ghost use Rattle.best_plan.specs.Moves.{IsAlternative};
ghost use Rattle.loop_plan.specs.Fallen.{Lowers};
ghost use Rattle.best_plan.specs.Tables.{known};
ghost use Rattle.loop_plan.specs.Waiting.{AreLowered, note};

use crate::falls::Falls;
use crate::note::Note;
use crate::way::Way;
use best_plan::{Choices, Solution};
use pr_value::{CAP, Memory};
use std::alloc::Global;
use std::collections::BinaryHeap;

/// Lowers the goals of these alternatives, and notes those that fell.
pub fn lower_all<C: Choices>(
    alloc: Global,
    choices: &C,
    falls: &mut Falls,
    work: &mut BinaryHeap<Note>,
    ways: &[Way],
) -> Result<(), Memory>
    requires alternatives { (w : _) → Contains ways.now w
        → IsAlternative (C.graph choices.now) w.goal w.k }
    ensures { OnOk result (AreLowered (C.graph choices.now) ways.now (length ways.now) falls.old falls.new
        (heap_items work.old) (heap_items work.new) (heap_len work.old) (heap_len work.new)) }
{
    for i in 0..ways.len() {
        let way = ways[i];
        if lower(alloc, choices, falls, way)? {
            work.push(note(falls, way.goal))?;
        }
    }
    Ok(())
}

/// The goal at its present value.
pub fn note(falls: &Falls, goal: u32) -> Note
    ensures { result ≡ note (known falls.now.entries) goal }
{
    Note {
        below: CAP + 1 - falls.value(goal),
        goal,
    }
}

/// Lowers the goal's value where the alternative costs less, and tells whether it fell.
fn lower<C: Choices>(
    alloc: Global,
    choices: &C,
    falls: &mut Falls,
    way: Way,
) -> Result<bool, Memory>
    requires alternative { IsAlternative (C.graph choices.now) way.goal way.k }
    ensures { IfOk result (Lowers (C.graph choices.now) way falls.old falls.new) }
{
    let cost = falls.cost(choices, way);
    if falls.value(way.goal) <= cost {
        return Ok(false);
    }
    let inputs = falls.places(alloc, choices, way)?;
    let Way { goal, k } = way;
    falls.add(Solution {
        goal,
        k,
        inputs,
        cost,
    })?;
    Ok(true)
}
