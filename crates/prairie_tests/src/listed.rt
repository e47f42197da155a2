ghost use Rattle.std.specs.Prelude.{◌≡◌, ℕ, ◌+◌, ◌-◌, ◌≤◌, ◌<◌, ⊤, length, max, min, nat_lt, if◌then◌else◌, OnOk, slice_get, Some, true, refl};
ghost use Rattle.std.specs.List.{list_any};
ghost use Rattle.prairie_tests.specs.Ways.{ways_of, input_at, inputs_of};
ghost use Rattle.prairie_tests.specs.Listed.{graph_of, rank_of, reaches_of, IsLater, is_opened};
ghost use Rattle.prairie_tests.specs.Forms.{same_kind, same_ways};
ghost use Rattle.prairie_tests.specs.FormLaws.{same_form_of};
ghost use Rattle.prairie_tests.specs.Laws.{choices_of, moves_of, grows_of, settled_of, same_of, chain_of};

use crate::ways::{Kind, Way, joined};
use best_plan::{Choices, Moves, UnfoldError};
use pr_value::{CAP, Items, Memory};
use replan::Forms;
use std::alloc::Global;
use std::cell::Cell;

/// Goals with their alternatives, of which some are unfolded.
#[derive(Drop)]
pub struct Listed {
    pub ways: Items<Items<Way>>,
    pub opened: Vec<u32>,
    /// How many goals may still be unfolded.
    pub left: u32,
    /// How often a cost was asked for.
    pub asked: Cell<u64>,
    pub ghost few: { length ways ≤ 1_000_000 },
}

impl Listed {
    /// There is not enough memory for more than a million goals.
    pub fn new(alloc: Global, ways: Items<Items<Way>>) -> Result<Listed, Memory> {
        if ways.len() > 1_000_000 {
            return Err(Memory);
        }
        Ok(Listed {
            ways,
            opened: Vec::new(alloc),
            left: u32::MAX,
            asked: Cell::new(0),
        })
    }

    /// Unfolds all goals.
    pub fn unfold_all(&mut self) -> Result<(), UnfoldError> {
        for goal in 0..self.goals() {
            if goal < self.goals() {
                self.unfold(goal)?;
            }
        }
        Ok(())
    }

    pub fn ways_of(&self, goal: u32) -> &[Way]
        ensures { result.now ≡ ways_of self.now.ways goal }
    {
        match self.ways.get(goal as usize) {
            Some(ways) => ways.as_slice(),
            None => &[],
        }
    }
}

fn input_of(way: &Way, goal: u32, goals: u32, i: usize) -> u32
    requires place { i < length (inputs_of goals goal way.now) }
    ensures { slice_get (inputs_of goals goal way.now) i ≡ Some result }
{
    let after = goal.saturating_add(1);
    let last = goals.saturating_sub(1);
    match way.inputs.get(i) {
        Some(input) => (*input).max(after).min(last),
        None => 0,
    }
}

impl Choices for Listed {
    ghost graph = { λ s. graph_of s.ways s.opened.items };

    ghost over = { λ _. ⊤ };

    ghost later = { λ s t. IsLater s.ways t.ways s.opened.items t.opened.items };

    ghost lawful = { λ s. choices_of s.ways s.opened.items };

    ghost same = { λ s. same_of s.ways s.opened.items };

    ghost chain = { λ s t u.
        chain_of s.ways t.ways u.ways s.opened.items t.opened.items u.opened.items };

    ghost grows = { λ s t. grows_of s.ways t.ways s.opened.items t.opened.items };

    ghost steady = { λ s t h. (λ o. o, λ o. o) };

    fn goals(&self) -> u32 {
        self.ways.len() as u32
    }

    fn unfolded(&self, goal: u32) -> bool {
        self.opened.iter().any(|g| *g == goal)
    }

    fn unfold(&mut self, goal: u32) -> Result<(), UnfoldError> {
        if self.left == 0 {
            return Err(UnfoldError::GoalsFull);
        }
        match self.opened.push(goal) {
            Ok(()) => {
                self.left -= 1;
                Ok(())
            }
            Err(_) => Err(UnfoldError::Memory),
        }
    }

    fn count(&self, goal: u32) -> usize {
        self.ways_of(goal).len()
    }

    fn input_count(&self, goal: u32, k: usize) -> usize {
        if (goal as usize) + 1 < self.ways.len() {
            self.ways_of(goal)[k].inputs.len().min(4)
        } else {
            0
        }
    }

    fn input(&self, goal: u32, k: usize, i: usize) -> u32 {
        let goals = self.goals();
        input_of(&self.ways_of(goal)[k], goal, goals, i)
    }

    fn cost(&self, goal: u32, k: usize, inputs: &[u64]) -> u64 {
        self.asked.set(self.asked.get().wrapping_add(1));
        let way = &self.ways_of(goal)[k];
        joined(way.kind, way.from, inputs)
    }
}

impl Moves for Listed {
    ghost rank = { λ s. rank_of s.ways };

    ghost reaches = { λ s. reaches_of s.ways };

    ghost ruled = { λ s. moves_of s.ways s.opened.items };

    ghost settled = { λ s t. settled_of s.ways t.ways s.opened.items t.opened.items };

    fn rank(&self, goal: u32) -> u32 {
        self.ways.len() as u32 - goal
    }
}

pub fn same_kind(a: Kind, b: Kind) -> bool
    ensures { result ≡ same_kind a b }
{
    match (a, b) {
        (Kind::Sum, Kind::Sum) => true,
        (Kind::Least, Kind::Least) => true,
        (Kind::Product, Kind::Product) => true,
        _ => false,
    }
}

impl Forms for Listed {
    ghost same_form = { λ s g k t h j. same_ways (length s.ways) g (slice_get (ways_of s.ways g) k)
        (length t.ways) h (slice_get (ways_of t.ways h) j) };

    ghost alike = { λ s t g k h j a b.
        same_form_of (length s.ways) g (slice_get (ways_of s.ways g) k)
        (length t.ways) h (slice_get (ways_of t.ways h) j) };

    fn same_form(
        &self,
        goal: u32,
        k: usize,
        other: &Self,
        other_goal: u32,
        other_k: usize,
    ) -> bool {
        let a = &self.ways_of(goal)[k];
        let b = &other.ways_of(other_goal)[other_k];
        let same = same_kind(a.kind, b.kind) && a.from.min(CAP) == b.from.min(CAP);
        same && self.input_count(goal, k) == other.input_count(other_goal, other_k)
    }
}
