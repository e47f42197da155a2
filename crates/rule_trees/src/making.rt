// What right sides make of trees.
ghost use Rattle.std.specs.Prelude.{◌≡◌, map, length, IfOk};
ghost use Rattle.descriptor_types.specs.Labels.{seen_tree};
ghost use Rattle.pr_value.specs.Trees.{trees_of};
ghost use Rattle.rule_trees.specs.Steps as spec;
ghost use Rattle.rule_runs.specs.Laws.{Suffice, AllSuffice};
ghost use Rattle.rule_runs.specs.SeenSides.{seen_side};

use descriptor_types::{Desc, Tree};
use pr_value::{Items, Memory};
use rule_runs::Side;
use std::alloc::Global;

/// A side with the first of these descriptors at its nodes, in the order of the text, and with
/// copies of the trees of its streams, and the descriptors that are left.
#[cycle(make)]
pub(crate) fn make<'d>(
    alloc: Global,
    streams: &[&Tree],
    side: &Side,
    descs: &'d [Desc],
) -> Result<(Tree, &'d [Desc]), Memory>
    requires { Suffice (length streams.now) (length descs.now) (seen_side side.now) }
    ensures { IfOk result (λ x. (seen_tree x.0, x.1.now)
        ≡ spec.tree_with (map (λ t. seen_tree t.now) streams.now) (seen_side side.now) descs.now) }
{
    match side {
        Side::Operator { op, inputs } => {
            let desc = descs[0].copy(alloc)?;
            let (inputs, rest) = make_all(alloc, streams, inputs.as_slice(), &descs[1..])?;
            Ok((
                Tree::Node {
                    op: *op,
                    desc,
                    inputs,
                },
                rest,
            ))
        }
        Side::Stream { place } => {
            let tree = streams[*place].copy(alloc)?;
            Ok((tree, descs))
        }
    }
}

#[cycle(make)]
fn make_all<'d>(
    alloc: Global,
    streams: &[&Tree],
    sides: &[Side],
    descs: &'d [Desc],
) -> Result<(Items<Tree>, &'d [Desc]), Memory>
    requires { AllSuffice (length streams.now) (length descs.now)
        (trees_of (map seen_side sides.now)) }
    ensures { IfOk result (λ x. (map seen_tree x.0, x.1.now)
        ≡ spec.trees_with (map (λ t. seen_tree t.now) streams.now)
        (trees_of (map seen_side sides.now)) descs.now) }
{
    let mut trees = Items::new(alloc);
    let mut rest = descs;
    for side in sides {
        let (tree, left) = make(alloc, streams, side, rest)?;
        trees.push(tree)?;
        rest = left;
    }
    Ok((trees, rest))
}
