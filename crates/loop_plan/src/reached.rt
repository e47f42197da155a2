ghost use Rattle.std.specs.Prelude.{◌≡◌, ◌≢◌, ℕ, ◌+◌, ◌≤◌, ◌<◌, true, length, Err, OnOk, IfOk, IsOk};
ghost use Rattle.std.specs.List.{Contains};
ghost use Rattle.pr_value.specs.Capped.{cap};
ghost use Rattle.best_plan.specs.Moves.{IsAlternative, IsUnfolded};
ghost use Rattle.loop_plan.specs.Leads.{Leads};
ghost use Rattle.loop_plan.specs.Reached.{IsReached, Grows, bound, inputs, with_met};

use crate::way::Way;
use best_plan::{Choices, FindError, Table, UnfoldError};
use pr_value::{CAP, Items, Memory};
use std::alloc::Global;

/// The goals that a root leads to, and their alternatives.
#[derive(Drop)]
pub struct Reached {
    pub root: u32,
    /// The goals have a bound past the cap, and all others 0.
    pub table: Table,
    pub ways: Items<Way>,
}

/// Unfolds all goals that the root leads to.
pub fn reach<C: Choices>(alloc: Global, choices: &mut C, root: u32) -> Result<Reached, FindError>
    requires there { root < (C.graph choices.old).goals }
    ensures later { C.later choices.old choices.new }
    ensures full { result ≡ Err FindError.GoalsFull → C.over choices.old }
    ensures root { IfOk result (λ r. (r.root ≡ root) × (bound r root ≡ cap + 1)) }
    ensures reached { IfOk result (λ r. IsReached (C.graph choices.new) r (length r.ways)) }
{
    let mut reached = Reached {
        root,
        table: Table::new(alloc),
        ways: Items::new(alloc),
    };
    meet(choices, &mut reached, root)?;
    let mut next = 0;
    while next < reached.ways.len() {
        let way = reached.ways.as_slice()[next];
        meet_inputs(choices, &mut reached, way)?;
        next += 1;
    }
    Ok(reached)
}

/// Meets the inputs of an alternative.
fn meet_inputs<C: Choices>(
    choices: &mut C,
    reached: &mut Reached,
    way: Way,
) -> Result<(), FindError>
    requires listed { Contains reached.old.ways way }
    requires reached { IsReached (C.graph choices.old) reached.old 0 }
    ensures later { C.later choices.old choices.new }
    ensures full { result ≡ Err FindError.GoalsFull → C.over choices.old }
    ensures reached { OnOk result ((n : ℕ) → n ≤ length reached.old.ways
        → IsReached (C.graph choices.old) reached.old n
        → IsReached (C.graph choices.new) reached.new n) }
    ensures grows { OnOk result (Grows reached.old reached.new) }
    ensures met { OnOk result ((h : ℕ) → Contains (inputs (C.graph choices.old) way) h
        → bound reached.new h ≡ cap + 1) }
{
    for i in 0..choices.input_count(way.goal, way.k) {
        let input = choices.input(way.goal, way.k, i);
        meet(choices, reached, input)?;
    }
    Ok(())
}

/// Unfolds the goal, and lists its alternatives, where it was not met before.
fn meet<C: Choices>(choices: &mut C, reached: &mut Reached, goal: u32) -> Result<(), FindError>
    requires there { goal < (C.graph choices.old).goals }
    requires leads { Leads (C.graph choices.old) reached.old.root goal }
    ensures later { C.later choices.old choices.new }
    ensures full { result ≡ Err FindError.GoalsFull → C.over choices.old }
    ensures reached { OnOk result ((n : ℕ) → n ≤ length reached.old.ways
        → IsReached (C.graph choices.old) reached.old n
        → IsReached (C.graph choices.new) reached.new n) }
    ensures grows { OnOk result (Grows reached.old reached.new) }
    ensures met { OnOk result (bound reached.new goal ≡ cap + 1) }
{
    if reached.table.bound(goal) > CAP {
        return Ok(());
    }
    open(choices, goal)?;
    match list(choices, reached, goal) {
        Ok(()) => Ok(()),
        Err(_) => Err(FindError::Memory),
    }
}

/// Unfolds the goal where it is not.
fn open<C: Choices>(choices: &mut C, goal: u32) -> Result<(), FindError>
    requires there { goal < (C.graph choices.old).goals }
    ensures later { C.later choices.old choices.new }
    ensures unfolded { OnOk result ((C.graph choices.new).unfolded goal ≡ true) }
    ensures full { result ≡ Err FindError.GoalsFull → C.over choices.old }
{
    if choices.unfolded(goal) {
        return Ok(());
    }
    match choices.unfold(goal) {
        Ok(()) => Ok(()),
        Err(UnfoldError::Memory) => Err(FindError::Memory),
        Err(UnfoldError::GoalsFull) => Err(FindError::GoalsFull),
    }
}

/// Lists the alternatives of an unfolded goal, which counts as met from now on.
fn list<C: Choices>(choices: &C, reached: &mut Reached, goal: u32) -> Result<(), Memory>
    requires unfolded { IsUnfolded (C.graph choices.now) goal }
    ensures { let m = C.graph choices.now in
        OnOk result (reached.new ≡ with_met reached.old m.goals goal (m.count goal)) }
{
    reached.table.reserve(choices.goals())?;
    for k in 0..choices.count(goal) {
        reached.ways.push(Way { goal, k })?;
    }
    reached.table.put(goal, CAP + 1, None);
    Ok(())
}
