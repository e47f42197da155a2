// Terms of what right sides make.
ghost use Rattle.std.specs.Prelude.{◌≡◌, List, length, map, take, IfOk};
ghost use Rattle.derivation.specs.Stands.{StandAll};
ghost use Rattle.pr_value.specs.Trees.{Tree, trees_of};
ghost use Rattle.tree_terms.specs.TermsMade.{StandsForMade, StandForMade};
ghost use Rattle.rule_trees.specs.Arities.{HaveArities, IsOfArities};
ghost use Rattle.tree_terms.specs.declared.labels.TreeLabel.{TreeLabel};
ghost use Rattle.rule_ast.specs.SeenRules.{seen_rules};
ghost use Rattle.rule_runs.specs.Laws.{Suffice, AllSuffice};
ghost use Rattle.rule_runs.specs.SeenSides.{seen_side};

use crate::dressing::{Dressing, node_label};
use crate::labels::TreeLabel;
use derivation::Terms;
use descriptor_types::Desc;
use pr_value::Memory;
use rule_runs::Side;
use std::alloc::Global;

/// The term of a side with the first of these descriptors at its nodes, in the order of the text,
/// over the terms of its streams, and the descriptors that are left.
#[cycle(make_terms)]
pub(crate) fn make_term<'d>(
    alloc: Global,
    dressing: &Dressing,
    streams: &[usize],
    side: &Side,
    descs: &'d [Desc],
    terms: &mut Terms<TreeLabel>,
) -> Result<(usize, &'d [Desc]), Memory>
    requires stand { (us : List (Tree TreeLabel)) × StandAll terms.old streams.now (trees_of us) }
    requires arities { IsOfArities (seen_rules dressing.now.rules.now) (seen_side side.now) }
    requires enough { Suffice (length streams.now) (length descs.now) (seen_side side.now) }
    ensures kept { take (length terms.old) terms.new ≡ terms.old }
    ensures made { IfOk result (λ x. StandsForMade (seen_rules dressing.now.rules.now)
        streams.now terms.old terms.new (seen_side side.now) descs.now x.0 x.1.now) }
{
    match side {
        Side::Operator { op, inputs } => {
            let desc = descs[0].copy(alloc)?;
            let (numbers, rest) = make_terms(
                alloc,
                dressing,
                streams,
                inputs.as_slice(),
                &descs[1..],
                terms,
            )?;
            let label = node_label(alloc, dressing, *op, desc)?;
            let number = terms.add(alloc, label, numbers.as_slice())?;
            Ok((number, rest))
        }
        Side::Stream { place } => Ok((streams[*place], descs)),
    }
}

#[cycle(make_terms)]
fn make_terms<'d>(
    alloc: Global,
    dressing: &Dressing,
    streams: &[usize],
    sides: &[Side],
    descs: &'d [Desc],
    terms: &mut Terms<TreeLabel>,
) -> Result<(Vec<usize>, &'d [Desc]), Memory>
    requires stand { (us : List (Tree TreeLabel)) × StandAll terms.old streams.now (trees_of us) }
    requires arities { HaveArities (seen_rules dressing.now.rules.now)
        (trees_of (map seen_side sides.now)) }
    requires enough { AllSuffice (length streams.now) (length descs.now)
        (trees_of (map seen_side sides.now)) }
    ensures kept { take (length terms.old) terms.new ≡ terms.old }
    ensures made { IfOk result (λ x. StandForMade (seen_rules dressing.now.rules.now)
        streams.now terms.old terms.new (trees_of (map seen_side sides.now)) descs.now
        x.0.items x.1.now) }
{
    let mut numbers = Vec::new(alloc);
    let mut rest = descs;
    for side in sides {
        let (number, left) = make_term(alloc, dressing, streams, side, rest, terms)?;
        numbers.push(number)?;
        rest = left;
    }
    Ok((numbers, rest))
}
