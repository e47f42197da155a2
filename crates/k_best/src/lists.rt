// The lists that have been found, goal by goal.
ghost use Rattle.std.specs.Prelude.{◌≡◌, ℕ, ◌+◌, ◌*◌, ◌<◌, [], length, replicate, slice_get, true, false, Option, None, IfOk};
ghost use Rattle.best_plan.specs.Solutions.{cost_in};
ghost use Rattle.k_best.specs.Lists.{IsDone, span_at, cost_at, label_at};

use crate::index::{Index, no_index};
use best_plan::Solution;
use pr_value::{Items, Memory};
use std::alloc::Global;

/// Places that stand one behind the other.
#[derive(Clone, Copy, Drop)]
pub struct Span {
    pub start: usize,
    pub count: usize,
}

/// The best solutions of some goals, a number for each solution that is the same exactly where two
/// show the same, the places of each goal's solutions, if it has a list, and the solutions in
/// chains.
#[derive(Drop)]
pub struct Lists {
    pub solutions: Items<Solution>,
    pub labels: Items<usize>,
    pub spans: Items<Option<Span>>,
    pub index: Index,
}

/// No lists, with room for so many goals.
pub fn no_lists(alloc: Global, goals: u32) -> Result<Lists, Memory>
    ensures solutions { IfOk result (λ l. l.solutions ≡ []) }
    ensures labels { IfOk result (λ l. l.labels ≡ []) }
    ensures spans { IfOk result (λ l. l.spans ≡ replicate goals None) }
    ensures marks { IfOk result (λ l. l.index.marks ≡ []) }
    ensures before { IfOk result (λ l. l.index.before ≡ []) }
    ensures heads { IfOk result (λ l. l.index.heads ≡ replicate (goals * 16 + 1) None) }
{
    let mut spans = Vec::new(alloc);
    spans.resize(goals as usize, None)?;
    Ok(Lists {
        solutions: Items::new(alloc),
        labels: Items::new(alloc),
        spans: Items::from_vec(spans),
        index: no_index(alloc, goals)?,
    })
}

impl Lists {
    pub fn is_done(&self, goal: u32) -> bool
        ensures yes { result ≡ true → IsDone self.now.spans goal }
        ensures no { result ≡ false → IsDone self.now.spans goal → ⊥ }
    {
        match self.spans.get(goal as usize) {
            Some(Some(_)) => true,
            _ => false,
        }
    }

    /// The places of the goal's solutions, and none where it has no list.
    pub fn span(&self, goal: u32) -> Span
        ensures { result ≡ span_at self.now.spans goal }
    {
        match self.spans.get(goal as usize) {
            Some(Some(span)) => *span,
            _ => Span { start: 0, count: 0 },
        }
    }

    pub fn cost(&self, at: usize) -> u64
        ensures { result ≡ cost_at self.now.solutions at }
    {
        match self.solutions.get(at) {
            Some(solution) => solution.cost,
            None => 0,
        }
    }

    pub fn label(&self, at: usize) -> usize
        ensures { result ≡ label_at self.now.labels at }
    {
        match self.labels.get(at) {
            Some(label) => *label,
            None => 0,
        }
    }
}
