// The solutions in chains, so that those that show the same are of one chain.
ghost use Rattle.std.specs.Prelude.{◌≡◌, ℕ, ◌+◌, ◌*◌, ◌%◌, ◌<◌, [], ◌∷◌, ◌++◌, length, map, replicate, slice_get, slice_set, Some, None, IfOk, OnOk};
ghost use Rattle.std.specs.List.{AllByRecursion};
ghost use Rattle.best_plan.specs.Moves.{IsAlternative};
ghost use Rattle.k_best.specs.Showings.{shown, shown_by};
ghost use Rattle.k_best.specs.Indexes.{AreMarks, entry_in, mark_at, mark_of, mix, mix_all};

use crate::faces::Faces;
use best_plan::Solution;
use pr_value::{Items, Memory};
use std::alloc::Global;

/// The mark of each solution, a number that is the same where two show the same; the last solution
/// of each chain; and for each solution the one before it in its chain.
#[derive(Drop)]
pub struct Index {
    pub marks: Items<u64>,
    pub heads: Items<Option<usize>>,
    pub before: Items<Option<usize>>,
}

/// No solutions, with chains for those of so many goals.
pub fn no_index(alloc: Global, goals: u32) -> Result<Index, Memory>
    ensures marks { IfOk result (λ i. i.marks ≡ []) }
    ensures before { IfOk result (λ i. i.before ≡ []) }
    ensures heads { IfOk result (λ i. i.heads ≡ replicate (goals * 16 + 1) None) }
{
    let mut heads = Vec::new(alloc);
    heads.resize(goals as usize * 16 + 1, None)?;
    Ok(Index {
        marks: Items::new(alloc),
        heads: Items::from_vec(heads),
        before: Items::new(alloc),
    })
}

fn mix(a: u64, b: u64) -> u64
    ensures { result ≡ mix a b }
{
    a.wrapping_mul(6_364_136_223_846_793_005).wrapping_add(b)
}

impl Index {
    fn mark(&self, at: usize) -> u64
        ensures { result ≡ mark_at self.now.marks at }
    {
        match self.marks.get(at) {
            Some(mark) => *mark,
            None => 0,
        }
    }

    fn inputs_mark(&self, inputs: &[usize]) -> u64
        ensures { result ≡ mix_all (map (mark_at self.now.marks) inputs.now) }
    {
        let mut mark = 0;
        let mut i = inputs.len();
        while i > 0 {
            i -= 1;
            mark = mix(mark, self.mark(inputs[i]));
        }
        mark
    }

    /// The mark of a solution whose inputs have marks.
    pub fn solution_mark<M: Faces>(&self, moves: &M, solution: &Solution) -> u64
        requires alternative { IsAlternative (M.graph moves.now) solution.now.goal solution.now.k }
        ensures { let marks = map (mark_at self.now.marks) solution.now.inputs in
            result ≡ mix (mix (mix_all marks) solution.now.cost)
            (M.face moves.now solution.now.goal solution.now.k) }
    {
        let inputs = self.inputs_mark(solution.inputs.as_slice());
        let face = moves.face(solution.goal, solution.k);
        mix(mix(inputs, solution.cost), face as u64)
    }

    /// The last solution of the mark's chain.
    pub fn last(&self, mark: u64) -> Option<usize>
        requires { 0 < length self.now.heads }
        ensures { let heads = self.now.heads in
            result ≡ entry_in (slice_get heads (mark % length heads)) }
    {
        match self.heads.get((mark % self.heads.len() as u64) as usize) {
            Some(last) => *last,
            None => None,
        }
    }

    /// The one before that solution in its chain.
    pub fn behind(&self, at: usize) -> Option<usize>
        ensures { result ≡ entry_in (slice_get self.now.before at) }
    {
        match self.before.get(at) {
            Some(before) => *before,
            None => None,
        }
    }

    /// The next solution has this mark.
    pub fn push(&mut self, mark: u64) -> Result<(), Memory>
        requires { 0 < length self.old.heads }
        ensures marks { OnOk result (self.new.marks ≡ self.old.marks ++ mark ∷ []) }
        ensures heads { let heads = self.old.heads in
            OnOk result (self.new.heads
            ≡ slice_set heads (mark % length heads) (Some (length self.old.marks))) }
        ensures before { let heads = self.old.heads in
            OnOk result (self.new.before
            ≡ self.old.before ++ entry_in (slice_get heads (mark % length heads)) ∷ []) }
    {
        let at = self.marks.len();
        let last = self.last(mark);
        let chain = (mark % self.heads.len() as u64) as usize;
        self.marks.push(mark)?;
        self.before.push(last)?;
        self.heads.set(chain, Some(at));
        Ok(())
    }
}
