ghost use Rattle.std.specs.Prelude.{◌≡◌, IfOk};

use descriptor_types::Desc;
use pr_value::{Items, Memory, Symbol};
use std::alloc::Global;

/// A file, or the algorithm of an I-rule, by the rule's place of declaration from 0, with its
/// descriptor over the plans of its inputs.
#[derive(Drop)]
pub enum Plan {
    File {
        name: Symbol,
    },
    Alg {
        rule: usize,
        desc: Desc,
        inputs: Items<Plan>,
    },
}

#[cycle(copy_plan)]
fn copy_plans(alloc: Global, plans: &[Plan]) -> Result<Items<Plan>, Memory>
    ensures { IfOk result (λ ps. ps ≡ plans.now) }
{
    let mut copies = Vec::with_capacity(alloc, plans.len())?;
    for plan in plans {
        copies.push(plan.copy(alloc)?)?;
    }
    Ok(Items::from_vec(copies))
}

impl Plan {
    /// An equal plan.
    #[cycle(copy_plan)]
    pub fn copy(&self, alloc: Global) -> Result<Plan, Memory>
        ensures { IfOk result (λ p. p ≡ self.now) }
    {
        match self {
            Plan::File { name } => Ok(Plan::File {
                name: name.copy(alloc)?,
            }),
            Plan::Alg { rule, desc, inputs } => Ok(Plan::Alg {
                rule: *rule,
                desc: desc.copy(alloc)?,
                inputs: copy_plans(alloc, inputs.as_slice())?,
            }),
        }
    }
}
