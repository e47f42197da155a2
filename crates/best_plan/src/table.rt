ghost use Rattle.std.specs.Prelude.{◌≡◌, ℕ, ◌+◌, ◌≤◌, ◌<◌, [], length, slice_set, OnOk, OnErr};
ghost use Rattle.pr_value.specs.Capped.{cap};
ghost use Rattle.best_plan.specs.Moves.{Graph, Reaches};
ghost use Rattle.best_plan.specs.Tables.{known, with_room, IsRight};

use pr_value::Memory;
use std::alloc::Global;
use std::marker::Model;

/// What is held of a goal: its bound, and the alternative that its solution names, if there is one.
#[derive(Clone, Copy, Drop)]
pub struct Entry {
    pub bound: u64,
    pub choice: Option<usize>,
}

/// What is held of each goal. A bound goes to 10^18 + 1, which says that the goal reaches nothing.
#[derive(Drop)]
pub struct Table {
    entries: Vec<Entry>,
}

impl Model for Table {
    ghost use Rattle.std.specs.Prelude.{List, ◌+◌, ◌≤◌};
    ghost use Rattle.std.specs.List.{AllByRecursion};
    ghost use Rattle.pr_value.specs.Capped.{cap};
    ghost use Rattle.best_plan.specs.declared.table.Entry.{Entry};

    ghost Value = { List Entry };

    ghost view = { λ t. t.entries.items };

    ghost invariant = { λ t. AllByRecursion (λ e. e.bound ≤ cap + 1) t.entries.items };
}

impl Table {
    /// A table that holds nothing, and so is right for all moves. It takes no memory.
    pub fn new(alloc: Global) -> Table
        ensures { result ≡ [] }
    {
        Table {
            entries: Vec::new(alloc),
        }
    }

    /// Makes room for so many goals. What it holds stays, also after an error.
    pub fn reserve(&mut self, goals: u32) -> Result<(), Memory>
        ensures ok { OnOk result (self.new ≡ with_room self.old goals) }
        ensures err { OnErr result (self.new ≡ self.old) }
    {
        let most = self.entries.len().max(goals as usize);
        let empty = Entry {
            bound: 0,
            choice: None,
        };
        self.entries.resize(most, empty)?;
        Ok(())
    }

    /// A number that is at most all that the goal reaches; it is 0 where nothing is held of it.
    pub fn bound(&self, goal: u32) -> u64
        ensures is { result ≡ (known self.now).bound goal }
        ensures capped { result ≤ cap + 1 }
    {
        match self.entries.get(goal as usize) {
            Some(entry) => entry.bound,
            None => 0,
        }
    }

    /// The alternative that the goal's solution names, and none where it holds no solution.
    pub fn choice(&self, goal: u32) -> Option<usize>
        ensures { result ≡ (known self.now).choice goal }
    {
        match self.entries.get(goal as usize) {
            Some(entry) => entry.choice,
            None => None,
        }
    }

    /// Replaces what is held of the goal.
    pub fn put(&mut self, goal: u32, bound: u64, choice: Option<usize>)
        requires room { goal < length self.old }
        requires capped { bound ≤ cap + 1 }
        ensures { self.new ≡ slice_set self.old goal (record { bound = bound; choice = choice }) }
    {
        self.entries[goal as usize] = Entry { bound, choice };
    }
}
