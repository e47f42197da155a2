// The search for a plan of least cost.
ghost use Rattle.std.specs.Prelude.{◌≡◌, ◌<◌, length, map, option_map, IfOk, OnOk};
ghost use Rattle.descriptor_types.specs.Labels.{seen_tree};
ghost use Rattle.plan_form.specs.Plans as plans;
ghost use Rattle.plan_form.specs.Plans.{IsAnswer, seen_plan};
ghost use Rattle.plan_search.specs.Found.{AreFound};
ghost use Rattle.plan_search.specs.Search as spec;
ghost use Rattle.plan_search.specs.Search.{AreBest, IsBestBelow, IsBestBy};
ghost use Rattle.pr_value.specs.Trees.{inputs, trees_of};
ghost use Rattle.property_classes.specs.Classes.{classes_of};
ghost use Rattle.rule_trees.specs.Trees.{AreTrees, IsTree};
ghost use Rattle.rule_trees.specs.Views.{physical};
ghost use Rattle.rule_ast.specs.SeenRules.{seen_rules};

use crate::found::{Found, copy_answer, keep, known};
use catalog::Catalog;
use descriptor_types::{Desc, Tree};
use plan_form::{Plan, cost, each_asked, implements, plan_by};
use pr_value::{Items, Memory};
use property_classes::Classes;
use query_tree::i_step;
use rule_types::Accepted;
use std::alloc::Global;

/// What trees are planned under.
#[derive(Clone, Copy)]
struct Under<'a> {
    accepted: &'a Accepted,
    classes: &'a Classes,
    catalog: &'a Catalog,
    ghost classed: { classes.now ≡ classes_of (seen_rules accepted.now.rules) },
}

/// The cheaper of two plans, the first where they cost the same.
fn lesser(a: &Accepted, best: Option<Plan>, other: Option<Plan>) -> Option<Plan>
    ensures { option_map seen_plan result ≡ spec.lesser (plans.cost (seen_rules a.now.rules))
        (option_map seen_plan best) (option_map seen_plan other) }
{
    match (best, other) {
        (Some(best), Some(other)) => Some(if cost(a, &best) <= cost(a, &other) {
            best
        } else {
            other
        }),
        (Some(best), None) => Some(best),
        (None, other) => other,
    }
}

/// The plan of a file, where it implements the tree.
fn file_plan(alloc: Global, under: &Under<'_>, t: &Tree) -> Result<Option<Plan>, Memory>
    requires tree { IsTree (seen_rules under.now.accepted.now.rules) under.now.catalog.now
        (seen_tree t.now) }
    ensures { IfOk result
        (λ o. IsBestBelow (seen_rules under.now.accepted.now.rules) under.now.catalog.now
        (seen_tree t.now) 0 (option_map seen_plan o)) }
{
    let Tree::File { name, .. } = t else {
        return Ok(None);
    };
    let plan = Plan::File {
        name: name.copy(alloc)?,
    };
    let Under {
        accepted,
        classes,
        catalog,
        ..
    } = *under;
    if implements(alloc, accepted, classes, catalog, &plan, t)? {
        Ok(Some(plan))
    } else {
        Ok(None)
    }
}

/// The inputs of the tree, each after what is asked of it.
fn asked_inputs(
    alloc: Global,
    under: &Under<'_>,
    asked: &[Desc],
    t: &Tree,
) -> Result<Vec<Tree>, Memory>
    ensures { IfOk result (λ ts. map seen_tree ts.items
        ≡ plans.each_asked (physical (seen_rules under.now.accepted.now.rules)) asked.now
        (inputs (seen_tree t.now))) }
{
    let trees = each_asked(alloc, under.classes.physical(), asked, t.inputs())?;
    Ok(trees)
}

/// A plan of least cost of the tree, or none.
#[cycle(search)]
fn best(
    alloc: Global,
    under: &Under<'_>,
    level: usize,
    t: &Tree,
    found: &mut Items<Found>,
) -> Result<Option<Plan>, Memory>
    requires tree { IsTree (seen_rules under.now.accepted.now.rules) under.now.catalog.now
        (seen_tree t.now) }
    requires found { AreFound (seen_rules under.now.accepted.now.rules) under.now.catalog.now
        found.old }
    ensures answer { IfOk result
        (λ o. IsAnswer (seen_rules under.now.accepted.now.rules) under.now.catalog.now
        (seen_tree t.now) (option_map seen_plan o)) }
    ensures found { OnOk result (AreFound (seen_rules under.now.accepted.now.rules)
        under.now.catalog.now found.new) }
{
    if let Some(entry) = known(found.as_slice(), level, t) {
        let answer = copy_answer(alloc, &entry.answer)?;
        return Ok(answer);
    }
    let answer = cheapest(alloc, under, level, t, found)?;
    keep(alloc, level, t, &answer, found)?;
    Ok(answer)
}

/// The cheapest among the plan of a file and the plans by each rule.
#[cycle(search)]
fn cheapest(
    alloc: Global,
    under: &Under<'_>,
    level: usize,
    t: &Tree,
    found: &mut Items<Found>,
) -> Result<Option<Plan>, Memory>
    requires tree { IsTree (seen_rules under.now.accepted.now.rules) under.now.catalog.now
        (seen_tree t.now) }
    requires found { AreFound (seen_rules under.now.accepted.now.rules) under.now.catalog.now
        found.old }
    ensures answer { IfOk result
        (λ o. IsAnswer (seen_rules under.now.accepted.now.rules) under.now.catalog.now
        (seen_tree t.now) (option_map seen_plan o)) }
    ensures found { OnOk result (AreFound (seen_rules under.now.accepted.now.rules)
        under.now.catalog.now found.new) }
{
    let mut best = file_plan(alloc, under, t)?;
    for rule in 0..under.accepted.rules.irules.as_slice().len() {
        let other = best_by(alloc, under, level, t, rule, found)?;
        best = lesser(under.accepted, best, other);
    }
    Ok(best)
}

/// A plan of least cost by one rule at the root of the tree, or none.
#[cycle(search)]
fn best_by(
    alloc: Global,
    under: &Under<'_>,
    level: usize,
    t: &Tree,
    rule: usize,
    found: &mut Items<Found>,
) -> Result<Option<Plan>, Memory>
    requires rule { rule < length under.now.accepted.now.rules.irules }
    requires tree { IsTree (seen_rules under.now.accepted.now.rules) under.now.catalog.now
        (seen_tree t.now) }
    requires found { AreFound (seen_rules under.now.accepted.now.rules) under.now.catalog.now
        found.old }
    ensures best { IfOk result
        (λ o. IsBestBy (seen_rules under.now.accepted.now.rules) under.now.catalog.now
        (seen_tree t.now) rule (option_map seen_plan o)) }
    ensures found { OnOk result (AreFound (seen_rules under.now.accepted.now.rules)
        under.now.catalog.now found.new) }
{
    let Under {
        accepted,
        classes,
        catalog,
        ..
    } = *under;
    let Some(step) = i_step(alloc, accepted, classes, catalog, rule, t)? else {
        return Ok(None);
    };
    let asked = asked_inputs(alloc, under, step.asked.as_slice(), t)?;
    let inner = level.saturating_add(1);
    match all_best(alloc, under, inner, asked.as_slice(), found)? {
        Some(inputs) => Ok(Some(plan_by(alloc, accepted, rule, step, inputs)?)),
        None => Ok(None),
    }
}

/// A plan of least cost for each tree, or none where one of them has none.
#[cycle(search)]
fn all_best(
    alloc: Global,
    under: &Under<'_>,
    level: usize,
    trees: &[Tree],
    found: &mut Items<Found>,
) -> Result<Option<Items<Plan>>, Memory>
    requires trees { AreTrees (seen_rules under.now.accepted.now.rules) under.now.catalog.now
        (trees_of (map seen_tree trees.now)) }
    requires found { AreFound (seen_rules under.now.accepted.now.rules) under.now.catalog.now
        found.old }
    ensures best { IfOk result
        (λ o. AreBest (seen_rules under.now.accepted.now.rules) under.now.catalog.now
        (map seen_tree trees.now) (option_map (map seen_plan) o)) }
    ensures found { OnOk result (AreFound (seen_rules under.now.accepted.now.rules)
        under.now.catalog.now found.new) }
{
    let mut plans = Items::new(alloc);
    for tree in trees {
        match best(alloc, under, level, tree, found)? {
            Some(plan) => plans.push(plan)?,
            None => return Ok(None),
        }
    }
    Ok(Some(plans))
}

/// A plan of least cost among all plans that implement the tree, or none where there is none. What
/// is found for a part of the tree and what is asked of it is kept, and not found again.
pub fn best_plan(
    alloc: Global,
    a: &Accepted,
    c: &Classes,
    catalog: &Catalog,
    t: &Tree,
) -> Result<Option<Plan>, Memory>
    requires classes { c.now ≡ classes_of (seen_rules a.now.rules) }
    requires tree { IsTree (seen_rules a.now.rules) catalog.now (seen_tree t.now) }
    ensures { IfOk result
        (λ o. IsAnswer (seen_rules a.now.rules) catalog.now (seen_tree t.now)
        (option_map seen_plan o)) }
{
    let under = Under {
        accepted: a,
        classes: c,
        catalog,
    };
    let mut found = Items::new(alloc);
    let answer = best(alloc, &under, 0, t, &mut found)?;
    Ok(answer)
}
