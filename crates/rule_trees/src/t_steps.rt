// What a T-rule makes of a tree at its root.
ghost use Rattle.std.specs.Prelude.{◌≡◌, ◌<◌, length, option_map, Contains, IfOk, IfSome};
ghost use Rattle.descriptor_types.specs.Labels.{seen_tree};
ghost use Rattle.property_classes.specs.Classes.{classes_of};
ghost use Rattle.rule_trees.specs.Matches.{IsMatchOf, seen_match};
ghost use Rattle.rule_trees.specs.Steps as spec;
ghost use Rattle.rule_trees.specs.Trees.{IsTree};
ghost use Rattle.rule_ast.specs.Seen.{seen_trule};
ghost use Rattle.rule_ast.specs.SeenRules.{seen_rules};

use crate::making::make;
use crate::under::Under;
use catalog::Catalog;
use descriptor_types::Tree;
use pr_value::Memory;
use property_classes::Classes;
use rule_ast::TRule;
use rule_runs::{Matched, find_match, left_side, right_side, run_trule};
use rule_types::Accepted;
use std::alloc::Global;

/// What the rule makes of what its left side matched, or none where its test is false.
fn rewritten(
    alloc: Global,
    under: &Under,
    rule: &TRule,
    found: Matched<&Tree>,
) -> Result<Option<Tree>, Memory>
    requires rule { Contains (seen_rules under.now.rules.now).trules (seen_trule rule.now) }
    requires found { IsMatchOf (seen_rules under.now.rules.now) under.now.catalog.now
        (seen_trule rule.now).left (seen_match found) }
    ensures made { IfOk result
        (λ o. option_map seen_tree o ≡ spec.rewritten (seen_rules under.now.rules.now)
        under.now.catalog.now (seen_trule rule.now) (seen_match found.entry)) }
    ensures tree { IfOk result (λ o. IfSome o
        (λ u. IsTree (seen_rules under.now.rules.now) under.now.catalog.now (seen_tree u))) }
{
    let rules = under.rules;
    let descs = run_trule(
        alloc,
        rules,
        under.layout,
        under.catalog,
        rule,
        &found.slots,
    )?;
    let Some(descs) = descs else {
        return Ok(None);
    };
    let operators = rules.operators.as_slice();
    let side = right_side(alloc, operators, &rule.left, &rule.right)?;
    let (tree, _rest) = make(alloc, found.streams.as_slice(), &side, descs.as_slice())?;
    Ok(Some(tree))
}

/// What the T-rule of that number makes of the tree at its root, or none where it does not apply:
/// the left side does not match, or the test is false.
pub fn t_step(
    alloc: Global,
    a: &Accepted,
    c: &Classes,
    catalog: &Catalog,
    rule: usize,
    t: &Tree,
) -> Result<Option<Tree>, Memory>
    requires classes { c.now ≡ classes_of (seen_rules a.now.rules) }
    requires rule { rule < length a.now.rules.trules }
    requires tree { IsTree (seen_rules a.now.rules) catalog.now (seen_tree t.now) }
    ensures step { IfOk result (λ o. option_map seen_tree o
        ≡ spec.step (seen_rules a.now.rules) catalog.now rule (seen_tree t.now)) }
    ensures tree { IfOk result
        (λ o. IfSome o (λ u. IsTree (seen_rules a.now.rules) catalog.now (seen_tree u))) }
{
    let rules = a.rules();
    let under = Under {
        rules,
        layout: a.layout(),
        classes: c,
        catalog,
    };
    let rule = &rules.trules.as_slice()[rule];
    let side = left_side(alloc, rules.operators.as_slice(), &rule.left)?;
    match find_match(alloc, &under, &side, t)? {
        Some(found) => rewritten(alloc, &under, rule, found),
        None => Ok(None),
    }
}
