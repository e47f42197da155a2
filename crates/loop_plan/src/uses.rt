ghost use Rattle.std.specs.Prelude.{◌≡◌, ◌≤◌, ◌<◌, ◌++◌, [], ◌∷◌, ℕ, List, length, OnOk, IfOk, slice_set};
ghost use Rattle.loop_plan.specs.Uses.{uses_at};

use crate::way::Way;
use pr_value::{Items, Memory};
use std::alloc::Global;
use std::marker::Model;

/// For each goal alternatives that it is an input of.
#[derive(Drop)]
pub struct Uses {
    lists: Vec<Items<Way>>,
}

impl Model for Uses {
    ghost use Rattle.std.specs.Prelude.{List};
    ghost use Rattle.loop_plan.specs.declared.way.Way.{Way};

    ghost Value = { List (List Way) };

    ghost view = { λ u. u.lists.items };
}

impl Uses {
    /// Room for so many goals, with no alternatives.
    pub fn new(alloc: Global, goals: u32) -> Result<Uses, Memory>
        ensures long { IfOk result (λ u. length u ≡ goals) }
        ensures empty { IfOk result (λ u. (h : ℕ) → uses_at u h ≡ []) }
    {
        let mut lists = Vec::new(alloc);
        for goal in 0..goals {
            lists.push(Items::new(alloc))?;
        }
        Ok(Uses { lists })
    }

    pub fn of(&self, goal: u32) -> &[Way]
        ensures { result.now ≡ uses_at self.now goal }
    {
        match self.lists.get(goal as usize) {
            Some(ways) => ways.as_slice(),
            None => &[],
        }
    }

    pub fn add(&mut self, goal: u32, way: Way) -> Result<(), Memory>
        requires room { goal < length self.old }
        ensures { OnOk result (self.new ≡ slice_set self.old goal (uses_at self.old goal ++ way ∷ [])) }
    {
        self.lists[goal as usize].push(way)?;
        Ok(())
    }
}
