// What was found for parts of the tree and what is asked of them.
ghost use Rattle.std.specs.Prelude.{◌≡◌, ◌++◌, ◌∷◌, [], Contains, IfOk, IfSome, OnOk};
ghost use Rattle.descriptor_types.specs.Labels.{seen_tree};
ghost use Rattle.plan_search.specs.Found.{IsKept};

use crate::equality::same_tree;
use descriptor_types::Tree;
use plan_form::Plan;
use pr_value::{Items, Memory};
use std::alloc::Global;

/// A part of the tree after what is asked of it, and its answer: a plan of least cost, or none. The
/// level is how deep the part stands, and only spares comparing trees of other levels.
#[derive(Drop)]
pub(crate) struct Found {
    pub(crate) level: usize,
    pub(crate) tree: Tree,
    pub(crate) answer: Option<Plan>,
}

/// A copy of a plan, or none.
pub(crate) fn copy_answer(alloc: Global, answer: &Option<Plan>) -> Result<Option<Plan>, Memory>
    ensures { IfOk result (λ o. o ≡ answer.now) }
{
    match answer {
        Some(plan) => Ok(Some(plan.copy(alloc)?)),
        None => Ok(None),
    }
}

/// What was found for the tree at that level.
pub(crate) fn known<'a>(found: &'a [Found], level: usize, t: &Tree) -> Option<&'a Found>
    ensures among { IfSome result (λ entry. Contains found.now entry.now) }
    ensures same { IfSome result (λ entry. seen_tree entry.now.tree ≡ seen_tree t.now) }
{
    for entry in found {
        if entry.level == level && same_tree(&entry.tree, t) {
            return Some(entry);
        }
    }
    None
}

/// Keeps the answer of a tree.
pub(crate) fn keep(
    alloc: Global,
    level: usize,
    t: &Tree,
    answer: &Option<Plan>,
    found: &mut Items<Found>,
) -> Result<(), Memory>
    ensures { OnOk result (IsKept found.old level t.now answer.now found.new) }
{
    let tree = t.copy(alloc)?;
    let answer = copy_answer(alloc, answer)?;
    found.push(Found {
        level,
        tree,
        answer,
    })?;
    Ok(())
}
