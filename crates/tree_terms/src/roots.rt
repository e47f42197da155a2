// Terms that stand for trees, as a matcher sees them.
ghost use Rattle.std.specs.Prelude.{◌≡◌};
ghost use Rattle.descriptor_types.specs.Labels.{desc_in};
ghost use Rattle.tree_terms.specs.TreeLabels.{plain_label};
ghost use Rattle.rule_trees.specs.Steps.{op_in};
ghost use Rattle.rule_runs.specs.Matching.{is_number};

use crate::labels::TreeLabel;
use derivation::Terms;
use descriptor_types::{Desc, Layout};
use pr_value::Memory;
use rule_runs::Roots;
use rule_trees::Under;
use std::alloc::Global;

/// The descriptor of a label, whole.
pub(crate) fn label_desc(label: &TreeLabel) -> &Desc
    ensures { result.now ≡ desc_in (plain_label label.now) }
{
    match label {
        TreeLabel::File { desc, .. } => desc,
        TreeLabel::Node { desc, .. } => desc,
    }
}

/// Whether the label is that operator's.
fn is_label_of(label: &TreeLabel, op: usize) -> bool
    ensures { result ≡ is_number (op_in (plain_label label.now)) op }
{
    match label {
        TreeLabel::File { .. } => false,
        TreeLabel::Node { op: place, .. } => *place == op,
    }
}

/// The trees that numbers of terms stand for, by the numbers.
#[derive(Clone, Copy)]
pub(crate) struct TermRoots<'a> {
    pub under: &'a Under<'a>,
    pub terms: &'a Terms<TreeLabel>,
}

impl<'a> Roots<usize> for TermRoots<'a> {
    ghost use Rattle.std.specs.Prelude.{ℕ};
    ghost use Rattle.tree_terms.specs.TermRoots.{term_roots};
    ghost use Rattle.rule_ast.specs.SeenRules.{seen_rules};

    ghost Thing = { ℕ };

    ghost seen = { λ n. n };

    ghost roots = { λ s. term_roots (seen_rules s.under.now.rules.now) s.terms.now };

    fn is_operator(&self, node: usize, op: usize) -> bool {
        match self.terms.at(node) {
            Some(term) => is_label_of(&term.label, op),
            None => false,
        }
    }

    fn whole(&self, alloc: Global, node: usize) -> Result<Desc, Memory> {
        match self.terms.at(node) {
            Some(term) => label_desc(&term.label).copy(alloc),
            None => Desc::plain(alloc, &Layout::new(alloc)),
        }
    }

    fn view(&self, alloc: Global, node: usize) -> Result<Desc, Memory> {
        let whole = self.whole(alloc, node)?;
        whole.view(alloc, self.under.layout, self.under.classes.seen())
    }

    fn count(&self, node: usize) -> usize {
        match self.terms.at(node) {
            Some(term) => term.inputs.as_slice().len(),
            None => 0,
        }
    }

    fn input(&self, node: usize, place: usize) -> usize {
        self.terms.inputs(node)[place]
    }
}
