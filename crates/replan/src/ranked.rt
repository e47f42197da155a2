ghost use Rattle.std.specs.Prelude.{IfOk};
ghost use Rattle.replan.specs.Ranked.{AreRanked};

use best_plan::Moves;
use pr_value::Memory;
use std::alloc::Global;

/// A goal with its rank.
#[derive(Clone, Copy, Drop)]
pub struct Ranked {
    pub rank: u32,
    pub goal: u32,
}

/// All goals, those of smaller ranks first.
pub fn by_rank<M: Moves>(alloc: Global, moves: &M) -> Result<Vec<Ranked>, Memory>
    ensures { IfOk result (λ v. AreRanked (M.graph moves.now).goals (M.rank moves.now) v.items) }
{
    let mut goals = Vec::new(alloc);
    for goal in 0..moves.goals() {
        let rank = moves.rank(goal);
        goals.push(Ranked { rank, goal })?;
    }
    goals.sort_unstable_by_key(|ranked| ranked.rank);
    Ok(goals)
}
