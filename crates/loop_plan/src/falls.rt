ghost use Rattle.std.specs.Prelude.{◌≡◌, ℕ, ◌+◌, ◌≤◌, ◌<◌, ◌++◌, [], ◌∷◌, length, Some, None, OnOk, IfOk, slice_set};
ghost use Rattle.pr_value.specs.Capped.{cap};
ghost use Rattle.best_plan.specs.Moves.{IsAlternative};
ghost use Rattle.best_plan.specs.Tables.{known, at_bounds};
ghost use Rattle.loop_plan.specs.Fallen.{value, last, places};

use crate::way::Way;
use best_plan::{Choices, Solution, Table, cost_at_bounds};
use pr_value::{Items, Memory};
use std::alloc::Global;
use std::marker::Model;

/// The values of the goals that a root leads to, with the solutions that they fell by.
#[derive(Drop)]
pub struct Falls {
    solutions: Items<Solution>,
    /// Values as bounds, and the places of last solutions as choices.
    table: Table,
}

impl Model for Falls {
    ghost use Rattle.loop_plan.specs.Fallen.{Fallen};

    ghost Value = { Fallen };

    ghost view = { λ f. record { solutions = f.solutions; entries = f.table } };
}

impl Falls {
    /// The solutions, each from earlier ones.
    pub fn solutions(&self) -> &[Solution]
        ensures { result.now ≡ self.now.solutions }
    {
        self.solutions.as_slice()
    }

    /// The least cost that the goal reaches, 10^18 + 1 where it reaches none, and 0 for a goal that
    /// the root does not lead to.
    pub fn value(&self, goal: u32) -> u64
        ensures is { result ≡ value self.now goal }
        ensures capped { result ≤ cap + 1 }
    {
        self.table.bound(goal)
    }

    /// The place of a solution of the goal at its value, where there is one.
    pub fn last(&self, goal: u32) -> Option<usize>
        ensures { result ≡ last self.now goal }
    {
        self.table.choice(goal)
    }

    /// No solutions, and the table's bounds as values.
    pub(crate) fn new(alloc: Global, table: Table) -> Falls
        ensures { result ≡ record { solutions = []; entries = table } }
    {
        Falls {
            solutions: Items::new(alloc),
            table,
        }
    }

    /// What the alternative costs with its inputs at their values.
    pub(crate) fn cost<C: Choices>(&self, choices: &C, way: Way) -> u64
        requires alternative { IsAlternative (C.graph choices.now) way.goal way.k }
        ensures { let a = (C.graph choices.now).alternative way.goal way.k in
            result ≡ at_bounds (known self.now.entries) a }
    {
        cost_at_bounds(choices, &self.table, way.goal, way.k)
    }

    /// The places of the last solutions of the alternative's inputs.
    pub(crate) fn places<C: Choices>(
        &self,
        alloc: Global,
        choices: &C,
        way: Way,
    ) -> Result<Items<usize>, Memory>
        requires alternative { IsAlternative (C.graph choices.now) way.goal way.k }
        ensures { let a = (C.graph choices.now).alternative way.goal way.k in
            IfOk result (λ r. r ≡ places (known self.now.entries) a.inputs) }
    {
        places_of(alloc, choices, &self.table, way)
    }

    /// Adds the solution, which costs less than its goal's value.
    pub(crate) fn add(&mut self, solution: Solution) -> Result<(), Memory>
        requires room { solution.goal < length self.old.entries }
        requires capped { solution.cost ≤ cap + 1 }
        ensures solutions { OnOk result (self.new.solutions ≡ self.old.solutions ++ solution ∷ []) }
        ensures entries { OnOk result (self.new.entries ≡ slice_set self.old.entries solution.goal
            (record { bound = solution.cost; choice = Some (length self.old.solutions) })) }
    {
        let at = self.solutions.len();
        let goal = solution.goal;
        let cost = solution.cost;
        self.solutions.push(solution)?;
        self.table.put(goal, cost, Some(at));
        Ok(())
    }
}

fn places_of<C: Choices>(
    alloc: Global,
    choices: &C,
    table: &Table,
    way: Way,
) -> Result<Items<usize>, Memory>
    requires alternative { IsAlternative (C.graph choices.now) way.goal way.k }
    ensures { let a = (C.graph choices.now).alternative way.goal way.k in
        IfOk result (λ r. r ≡ places (known table.now) a.inputs) }
{
    let mut found = Items::new(alloc);
    for i in 0..choices.input_count(way.goal, way.k) {
        let input = choices.input(way.goal, way.k, i);
        found.push(table.choice(input).unwrap_or(0))?;
    }
    Ok(found)
}
