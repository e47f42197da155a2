// Operator trees as a matcher sees them.
use crate::under::Under;
use descriptor_types::{Desc, Tree};
use pr_value::Memory;
use rule_runs::Roots;
use std::alloc::Global;

/// Operator trees.
impl<'a, 't> Roots<&'t Tree> for Under<'a> {
    ghost use Rattle.pr_value.specs.Trees as trees;
    ghost use Rattle.descriptor_types.specs.Labels.{Label, seen_tree};
    ghost use Rattle.rule_trees.specs.Steps.{tree_roots};
    ghost use Rattle.rule_ast.specs.SeenRules.{seen_rules};

    ghost Thing = { trees.Tree Label };

    ghost seen = { λ t. seen_tree t.now };

    ghost roots = { λ u. tree_roots (seen_rules u.rules.now) };

    fn is_operator(&self, tree: &'t Tree, op: usize) -> bool {
        match tree {
            Tree::File { .. } => false,
            Tree::Node { op: place, .. } => *place == op,
        }
    }

    fn whole(&self, alloc: Global, tree: &'t Tree) -> Result<Desc, Memory> {
        tree.desc().copy(alloc)
    }

    fn view(&self, alloc: Global, tree: &'t Tree) -> Result<Desc, Memory> {
        tree.view(alloc, self.layout, self.classes.seen())
    }

    fn count(&self, tree: &'t Tree) -> usize {
        tree.inputs().len()
    }

    fn input(&self, tree: &'t Tree, place: usize) -> &'t Tree {
        &tree.inputs()[place]
    }
}
