// Trees as numbers of terms.
ghost use Rattle.std.specs.Prelude.{◌≡◌, length, map, take, IfOk, OnOk};
ghost use Rattle.catalog.specs.Contents.{Catalog};
ghost use Rattle.derivation.specs.Stands.{Stands, StandAll};
ghost use Rattle.descriptor_types.specs.Labels.{seen_tree};
ghost use Rattle.pr_value.specs.Trees.{trees_of};
ghost use Rattle.property_classes.specs.Classes.{classes_of};
ghost use Rattle.tree_terms.specs.Dressed.{dressed};
ghost use Rattle.tree_terms.specs.TermsAdded.{AddsParts, AddsPartsOf};
ghost use Rattle.rule_trees.specs.Trees.{IsTree, AreTrees};
ghost use Rattle.rule_ast.specs.SeenRules.{seen_rules};

use crate::dressing::{Dressing, file_label, node_label};
use crate::labels::TreeLabel;
use derivation::Terms;
use descriptor_types::Tree;
use enforcer_find::Enforcers;
use pr_value::Memory;
use property_classes::Classes;
use rule_types::Accepted;
use std::alloc::Global;

#[cycle(add)]
fn add_node(
    alloc: Global,
    dressing: &Dressing,
    tree: &Tree,
    terms: &mut Terms<TreeLabel>,
) -> Result<usize, Memory>
    requires { (k : Catalog) × IsTree (seen_rules dressing.now.rules.now) k (seen_tree tree.now) }
    ensures kept { take (length terms.old) terms.new ≡ terms.old }
    ensures stands { IfOk result
        (λ n. Stands terms.new n (dressed (seen_rules dressing.now.rules.now) (seen_tree tree.now))) }
    ensures parts { OnOk result (AddsParts
        (dressed (seen_rules dressing.now.rules.now) (seen_tree tree.now)) terms.old terms.new) }
{
    match tree {
        Tree::File { name, desc } => {
            let name = name.copy(alloc)?;
            let desc = desc.copy(alloc)?;
            let label = file_label(alloc, dressing, name, desc)?;
            let number = terms.add(alloc, label, &[])?;
            Ok(number)
        }
        Tree::Node { op, desc, inputs } => {
            let numbers = add_nodes(alloc, dressing, inputs.as_slice(), terms)?;
            let desc = desc.copy(alloc)?;
            let label = node_label(alloc, dressing, *op, desc)?;
            let number = terms.add(alloc, label, numbers.as_slice())?;
            Ok(number)
        }
    }
}

#[cycle(add)]
fn add_nodes(
    alloc: Global,
    dressing: &Dressing,
    trees: &[Tree],
    terms: &mut Terms<TreeLabel>,
) -> Result<Vec<usize>, Memory>
    requires { (k : Catalog) × AreTrees (seen_rules dressing.now.rules.now) k
        (trees_of (map seen_tree trees.now)) }
    ensures kept { take (length terms.old) terms.new ≡ terms.old }
    ensures stand { IfOk result (λ ns. StandAll terms.new ns.items
        (trees_of (map (λ t. dressed (seen_rules dressing.now.rules.now) (seen_tree t)) trees.now))) }
    ensures parts { OnOk result (AddsPartsOf
        (map (λ t. dressed (seen_rules dressing.now.rules.now) (seen_tree t)) trees.now)
        terms.old terms.new) }
{
    let mut numbers = Vec::new(alloc);
    for tree in trees {
        let number = add_node(alloc, dressing, tree, terms)?;
        numbers.push(number)?;
    }
    Ok(numbers)
}

/// Adds the nodes of a tree, and nothing else, and gives the number that stands for it. There may be
/// more terms after an error.
pub fn add_tree(
    alloc: Global,
    a: &Accepted,
    c: &Classes,
    t: &Tree,
    terms: &mut Terms<TreeLabel>,
) -> Result<usize, Memory>
    requires classes { c.now ≡ classes_of (seen_rules a.now.rules) }
    requires tree { (k : Catalog) × IsTree (seen_rules a.now.rules) k (seen_tree t.now) }
    ensures kept { take (length terms.old) terms.new ≡ terms.old }
    ensures stands { IfOk result
        (λ n. Stands terms.new n (dressed (seen_rules a.now.rules) (seen_tree t.now))) }
    ensures parts { OnOk result (AddsParts (dressed (seen_rules a.now.rules) (seen_tree t.now))
        terms.old terms.new) }
{
    let enforcers = Enforcers::of(alloc, a.rules())?;
    let dressing = Dressing::new(a, c, &enforcers);
    let number = add_node(alloc, &dressing, t, terms)?;
    Ok(number)
}
