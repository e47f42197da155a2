ghost use Rattle.std.specs.Prelude.{◌≡◌, ℕ, min};
ghost use Rattle.prairie_tests.specs.Faces.{face_of};

use crate::listed::Listed;
use crate::search::all_unfolded;
use best_plan::Choices;
use k_best::{Faces, best_of};
use std::alloc::Global;

impl Faces for Listed {
    ghost face = { λ s. face_of s.ways };

    fn face(&self, goal: u32, k: usize) -> u32 {
        self.ways_of(goal)[k].from.min(u32::MAX as u64) as u32
    }
}

/// The goal's best solutions. None where it is not there, none is asked for, a goal is not unfolded
/// or there is no memory.
#[tactic(auto, using(crate::proofs::BestLaws::all_led))]
pub fn best(alloc: Global, moves: &Listed, goal: u32, most: usize) -> Option<k_best::Listed> {
    if goal >= moves.goals() || most == 0 || !all_unfolded(moves) {
        return None;
    }
    match best_of(alloc, moves, goal, most) {
        Ok(listed) => Some(listed),
        Err(_) => None,
    }
}
