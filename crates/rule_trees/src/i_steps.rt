// What an I-rule asks and costs at the root of a tree.
ghost use Rattle.std.specs.Prelude.{◌≡◌, ◌<◌, true, length, option_map, IfOk, IfSome};
ghost use Rattle.std.specs.List.{list_all};
ghost use Rattle.action_eval.specs.Cost.{is_over};
ghost use Rattle.action_eval.specs.SeenForms.{seen_form, seen_step};
ghost use Rattle.descriptor_types.specs.Descriptors.{fits};
ghost use Rattle.descriptor_types.specs.Labels.{seen_tree};
ghost use Rattle.property_classes.specs.Classes.{classes_of};
ghost use Rattle.rule_trees.specs.Steps as spec;
ghost use Rattle.rule_trees.specs.Trees.{IsTree};
ghost use Rattle.rule_ast.specs.SeenRules.{seen_rules};

use crate::under::Under;
use action_eval::IStep;
use catalog::Catalog;
use descriptor_types::Tree;
use pr_value::Memory;
use property_classes::Classes;
use rule_runs::{find_match, left_side, operator_at, run_irule};
use rule_types::Accepted;
use std::alloc::Global;

/// What the I-rule of that number asks and costs at the root of the tree, or none where it does not
/// apply: the left side does not match, or the test is false.
pub fn i_step(
    alloc: Global,
    a: &Accepted,
    c: &Classes,
    catalog: &Catalog,
    rule: usize,
    t: &Tree,
) -> Result<Option<IStep>, Memory>
    requires classes { c.now ≡ classes_of (seen_rules a.now.rules) }
    requires rule { rule < length a.now.rules.irules }
    requires tree { IsTree (seen_rules a.now.rules) catalog.now (seen_tree t.now) }
    ensures step { IfOk result (λ o. option_map seen_step o
        ≡ spec.i_step (seen_rules a.now.rules) catalog.now rule (seen_tree t.now)) }
    ensures over { IfOk result
        (λ o. IfSome o (λ s. is_over (length s.asked) (seen_form s.cost) ≡ true)) }
    ensures fits { IfOk result
        (λ o. IfSome o (λ s. fits a.now.rules.properties s.before ≡ true)) }
    ensures asked { IfOk result
        (λ o. IfSome o (λ s. list_all (fits a.now.rules.properties) s.asked ≡ true)) }
{
    let rules = a.rules();
    let layout = a.layout();
    let under = Under {
        rules,
        layout,
        classes: c,
        catalog,
    };
    let rule = &rules.irules.as_slice()[rule];
    let side = left_side(alloc, rules.operators.as_slice(), &rule.left)?;
    let Some(found) = find_match(alloc, &under, &side, t)? else {
        return Ok(None);
    };
    run_irule(
        alloc,
        rules,
        layout,
        c.physical(),
        catalog,
        rule,
        &found.slots,
    )
}

/// The tree that the stream of that place, from 0, of the I-rule of that number stands for at the
/// root of the tree, or none where its operator does not match or it has no such stream.
pub fn i_stream<'a>(a: &Accepted, rule: usize, t: &'a Tree, stream: usize) -> Option<&'a Tree>
    requires rule { rule < length a.now.rules.irules }
    ensures { option_map (λ u. seen_tree u.now) result
        ≡ spec.i_stream_tree (seen_rules a.now.rules) rule stream (seen_tree t.now) }
{
    let Tree::Node { op, inputs, .. } = t else {
        return None;
    };
    let rules = a.rules();
    let left = &rules.irules.as_slice()[rule].left;
    let root = operator_at(rules.operators.as_slice(), &left.op);
    if *op != root {
        return None;
    }
    if inputs.len() != left.inputs.len() {
        return None;
    }
    inputs.as_slice().get(stream)
}
