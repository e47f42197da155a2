ghost use Rattle.std.specs.Prelude.{◌≡◌, ℕ, ◌≤◌, ◌<◌, Bool, length, IfOk};
ghost use Rattle.best_plan.specs.Tables.{known, IsRight};
ghost use Rattle.replan.specs.Carried.{IsCarried, IsStep};

use crate::forms::Forms;
use crate::matching::matching;
use crate::ranked::by_rank;
use best_plan::Table;
use pr_value::Memory;
use std::alloc::Global;

/// The table for the new moves, with what the old moves' table holds of the goals that did not
/// change. A goal is kept exactly where its place names a goal of the old moves, both are unfolded,
/// they have as many alternatives, and each alternative of the one has the form of that of the
/// other, from inputs that are kept, at the places of the other's inputs.
pub fn carry<M: Forms>(
    alloc: Global,
    old: &M,
    table: &Table,
    new: &M,
    places: &[Option<u32>],
) -> Result<Table, Memory>
    requires right { IsRight (M.graph old.now) (M.reaches old.now) (known table.now) }
    requires places { length places.now ≡ (M.graph new.now).goals }
    ensures carried { let form = λ (g k h j : ℕ). M.same_form new.now g k old.now h j in
        IfOk result (λ t. IsCarried (M.graph old.now) (M.graph new.now) form places.now
        (known table.now) (known t)) }
    ensures right { IfOk result (λ t. IsRight (M.graph new.now) (M.reaches new.now) (known t)) }
{
    let mut kept = vec![in alloc; false; new.goals() as usize]?;
    let mut carried = Table::new(alloc);
    carried.reserve(new.goals())?;
    let order = by_rank(alloc, new)?;
    for i in 0..order.len() {
        let goal = order[i].goal;
        carry_goal(
            old,
            table,
            new,
            places,
            kept.as_mut_slice(),
            &mut carried,
            goal,
        );
    }
    Ok(carried)
}

/// Keeps the goal where it matches its place, with the entry of that.
fn carry_goal<M: Forms>(
    old: &M,
    table: &Table,
    new: &M,
    places: &[Option<u32>],
    kept: &mut [bool],
    carried: &mut Table,
    goal: u32,
)
    requires there { goal < (M.graph new.now).goals }
    requires flags { length kept.old ≡ (M.graph new.now).goals }
    requires room { (M.graph new.now).goals ≤ length carried.old }
    ensures { let form = λ (g k h j : ℕ). M.same_form new.now g k old.now h j in
        IsStep (M.graph old.now) (M.graph new.now) form places.now (known table.now) goal
        kept.old kept.new carried.old carried.new }
{
    if let Some(was) = matching(old, new, places, kept, goal) {
        kept[goal as usize] = true;
        carried.put(goal, table.bound(was), table.choice(was));
    }
}
