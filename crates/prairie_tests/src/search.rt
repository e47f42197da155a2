ghost use Rattle.std.specs.Prelude.{◌≡◌, ℕ, ◌<◌, true, length, OnOk};
ghost use Rattle.best_plan.specs.Tables.{known, IsRight};
ghost use Rattle.best_plan.specs.Moves.{IsAllUnfolded};
ghost use Rattle.prairie_tests.specs.Listed.{graph_of, reaches_of};
ghost use Rattle.std.proofs.Props.{props};

use crate::listed::Listed;
use best_plan::{Choices, FindError, Found, Table, find, solve};
use pr_value::CAP;
use replan::carry;
use std::alloc::Global;

/// Moves with a table that is right for them.
#[derive(Drop)]
pub struct Search {
    pub moves: Listed,
    pub table: Table,
    pub ghost right: { let m = graph_of moves.ways moves.opened.items in
        IsRight m (reaches_of moves.ways) (known table) } by { Prim.hlevel props },
}

impl Search {
    pub fn new(alloc: Global, moves: Listed) -> Search {
        Search {
            moves,
            table: Table::new(alloc),
        }
    }

    /// None where the goal is not there, or the limit is past its range.
    pub fn find(&mut self, goal: u32, limit: u64) -> Option<Result<Found, FindError>> {
        if goal >= self.moves.goals() || limit > CAP + 1 {
            return None;
        }
        Some(find(&mut self.moves, &mut self.table, goal, limit))
    }

    /// None where the goal is not there, a goal is not unfolded or there is no room for one.
    pub fn solve(&mut self, goal: u32) -> Option<u64> {
        let goals = self.moves.goals();
        if goal >= goals || !all_unfolded(&self.moves) {
            return None;
        }
        match self.table.reserve(goals) {
            Ok(()) => Some(solve(&self.moves, &mut self.table, goal)),
            Err(_) => None,
        }
    }

    /// None where there is not a place for each new goal, or no memory.
    pub fn carried(&self, alloc: Global, new: Listed, places: &[Option<u32>]) -> Option<Search> {
        if places.len() != new.ways.len() {
            return None;
        }
        match carry(alloc, &self.moves, &self.table, &new, places) {
            Ok(table) => Some(Search { moves: new, table }),
            Err(_) => None,
        }
    }
}

/// Whether all goals are unfolded.
pub fn all_unfolded(moves: &Listed) -> bool
    ensures { result ≡ true → IsAllUnfolded (graph_of moves.now.ways moves.now.opened.items) }
{
    for goal in 0..moves.goals() {
        if !moves.unfolded(goal) {
            return false;
        }
    }
    true
}
