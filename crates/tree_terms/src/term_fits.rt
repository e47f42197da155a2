// Whether what a left side matched at a term fits the layout.
ghost use Rattle.std.specs.Prelude.{◌≡◌, ◌&&◌, List};
ghost use Rattle.std.specs.List.{list_all};
ghost use Rattle.derivation.specs.Stands.{Stands, StandAll};
ghost use Rattle.descriptor_types.specs.Descriptors.{fits};
ghost use Rattle.pr_value.specs.Trees.{Tree, trees_of};
ghost use Rattle.tree_terms.specs.TermFits.{SaysFit, fits_root};
ghost use Rattle.tree_terms.specs.declared.labels.TreeLabel.{TreeLabel};

use crate::labels::TreeLabel;
use crate::roots::label_desc;
use derivation::Terms;
use descriptor_types::{Desc, Layout};
use rule_runs::Matched;

fn all_fit(layout: &Layout, descs: &[Desc]) -> bool
    ensures { result ≡ list_all (fits layout.now) descs.now }
{
    for desc in descs {
        if !desc.fits(layout) {
            return false;
        }
    }
    true
}

fn is_root_fit(layout: &Layout, terms: &Terms<TreeLabel>, node: usize) -> bool
    ensures { (u : Tree TreeLabel) → Stands terms.now node u → result ≡ fits_root layout.now u }
{
    match terms.at(node) {
        Some(term) => label_desc(&term.label).fits(layout),
        None => false,
    }
}

fn are_roots_fit(layout: &Layout, terms: &Terms<TreeLabel>, streams: &[usize]) -> bool
    ensures { SaysFit layout.now terms.now result streams.now }
{
    for stream in streams {
        if !is_root_fit(layout, terms, *stream) {
            return false;
        }
    }
    true
}

/// Whether the descriptors of the nodes, and the trees of the streams at their roots, have a value of
/// its kind for each property.
pub(crate) fn is_match_fit(
    layout: &Layout,
    terms: &Terms<TreeLabel>,
    found: &Matched<usize>,
) -> bool
    ensures { (us : List (Tree TreeLabel)) → StandAll terms.now found.now.streams.items (trees_of us)
        → result ≡ (list_all (fits layout.now) found.now.slots.nodes && list_all (fits_root layout.now) us) }
{
    all_fit(layout, found.slots.nodes.as_slice())
        && are_roots_fit(layout, terms, found.streams.as_slice())
}
