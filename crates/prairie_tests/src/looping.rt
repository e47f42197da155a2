ghost use Rattle.std.specs.Prelude.{◌≡◌, ⊤, length, slice_get, Some};
ghost use Rattle.prairie_tests.specs.Listed.{IsLater};
ghost use Rattle.prairie_tests.specs.Looping.{looping_of};
ghost use Rattle.prairie_tests.specs.Laws.{same_of, chain_of};
ghost use Rattle.prairie_tests.specs.LoopingLaws.{looping_choices, looping_grows};

use crate::listed::Listed;
use crate::ways::joined;
use best_plan::{Choices, UnfoldError};

/// The same goals, with alternatives that may lead back to them.
#[derive(Drop)]
pub struct Looping {
    pub goals: Listed,
}

impl Choices for Looping {
    ghost graph = { λ s. looping_of s.goals.ways s.goals.opened.items };

    ghost over = { λ _. ⊤ };

    ghost later = { λ s t.
        IsLater s.goals.ways t.goals.ways s.goals.opened.items t.goals.opened.items };

    ghost lawful = { λ s. looping_choices s.goals.ways s.goals.opened.items };

    ghost same = { λ s. same_of s.goals.ways s.goals.opened.items };

    ghost chain = { λ s t u. chain_of s.goals.ways t.goals.ways u.goals.ways
        s.goals.opened.items t.goals.opened.items u.goals.opened.items };

    ghost grows = { λ s t.
        looping_grows s.goals.ways t.goals.ways s.goals.opened.items t.goals.opened.items };

    ghost steady = { λ s t h. (λ o. o, λ o. o) };

    fn goals(&self) -> u32 {
        self.goals.goals()
    }

    fn unfolded(&self, goal: u32) -> bool {
        self.goals.unfolded(goal)
    }

    fn unfold(&mut self, goal: u32) -> Result<(), UnfoldError> {
        self.goals.unfold(goal)
    }

    fn count(&self, goal: u32) -> usize {
        self.goals.count(goal)
    }

    fn input_count(&self, goal: u32, k: usize) -> usize {
        self.goals.ways_of(goal)[k].inputs.len().min(4)
    }

    fn input(&self, goal: u32, k: usize, i: usize) -> u32 {
        let last = self.goals().saturating_sub(1);
        match self.goals.ways_of(goal)[k].inputs.get(i) {
            Some(input) => (*input).min(last),
            None => 0,
        }
    }

    fn cost(&self, goal: u32, k: usize, inputs: &[u64]) -> u64 {
        let way = &self.goals.ways_of(goal)[k];
        joined(way.kind, way.from, inputs)
    }
}
