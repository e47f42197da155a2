// What plans implement.
ghost use Rattle.std.specs.Prelude.{◌≡◌, ◌↔◌, ◌≤◌, [], true, All, length, map, option_map, IfOk, IfSome, IsTrue};
ghost use Rattle.std.specs.List.{list_all};
ghost use Rattle.action_eval.specs.Cost.{is_over};
ghost use Rattle.action_eval.specs.SeenForms.{seen_form, seen_step};
ghost use Rattle.descriptor_types.specs.Descriptors.{fits, only};
ghost use Rattle.descriptor_types.specs.Labels.{seen_tree};
ghost use Rattle.plan_form.specs.Plans as spec;
ghost use Rattle.plan_form.specs.Plans.{AllImplement, Implements, SamePhysical, seen_plan};
ghost use Rattle.pr_value.specs.Trees.{tree, trees_of};
ghost use Rattle.property_classes.specs.Classes.{classes_of};
ghost use Rattle.rule_trees.specs.Steps as steps;
ghost use Rattle.rule_trees.specs.Trees.{AreTrees, IsTree};
ghost use Rattle.rule_ast.specs.SeenRules.{seen_rules};

use crate::costing::{costs_of, set_cost};
use crate::plan::Plan;
use action_eval::IStep;
use catalog::Catalog;
use descriptor_types::{Desc, Layout, Mask, Tree};
use pr_value::{CAP, Items, Memory, Symbol};
use property_classes::Classes;
use query_tree::{i_step, listed_desc};
use rule_types::Accepted;
use std::alloc::Global;

// ---- files

/// Whether the descriptors have equal values at the properties of the mask.
fn same_part(
    alloc: Global,
    layout: &Layout,
    mask: &Mask,
    d: &Desc,
    e: &Desc,
) -> Result<bool, Memory>
    ensures { IfOk result (λ b. IsTrue b
        ↔ (only layout.now mask.now d.now ≡ only layout.now mask.now e.now)) }
{
    let first = d.view(alloc, layout, mask)?;
    let second = e.view(alloc, layout, mask)?;
    Ok(first.same(&second))
}

/// Whether the physical properties of the file's descriptor are those that the catalog gives it.
fn is_as_listed(
    alloc: Global,
    a: &Accepted,
    c: &Classes,
    catalog: &Catalog,
    name: &Symbol,
    desc: &Desc,
) -> Result<bool, Memory>
    requires classes { c.now ≡ classes_of (seen_rules a.now.rules) }
    ensures { IfOk result (λ b. IsTrue b ↔ SamePhysical (seen_rules a.now.rules) desc.now
        (spec.listed_desc (seen_rules a.now.rules) catalog.now name.now)) }
{
    let listed = listed_desc(alloc, &a.layout, catalog, name)?;
    let same = same_part(alloc, &a.layout, c.physical(), desc, &listed)?;
    Ok(same)
}

fn file_implements(
    alloc: Global,
    a: &Accepted,
    c: &Classes,
    catalog: &Catalog,
    name: &Symbol,
    t: &Tree,
) -> Result<bool, Memory>
    requires classes { c.now ≡ classes_of (seen_rules a.now.rules) }
    ensures { IfOk result (λ b. IsTrue b ↔ Implements (seen_rules a.now.rules) catalog.now
        (tree (spec.file name.now) []) (seen_tree t.now)) }
{
    let Tree::File { name: other, desc } = t else {
        return Ok(false);
    };
    if name != other {
        return Ok(false);
    }
    let listed = is_as_listed(alloc, a, c, catalog, name, desc)?;
    Ok(listed)
}

// ---- algorithms

/// What the rule asks and costs at the root of the tree, or none where it does not apply or is not
/// declared.
fn step_of(
    alloc: Global,
    a: &Accepted,
    c: &Classes,
    catalog: &Catalog,
    rule: usize,
    t: &Tree,
) -> Result<Option<IStep>, Memory>
    requires classes { c.now ≡ classes_of (seen_rules a.now.rules) }
    requires tree { IsTree (seen_rules a.now.rules) catalog.now (seen_tree t.now) }
    ensures step { IfOk result (λ o. option_map seen_step o
        ≡ steps.i_step (seen_rules a.now.rules) catalog.now rule (seen_tree t.now)) }
    ensures over { IfOk result
        (λ o. IfSome o (λ s. is_over (length s.asked) (seen_form s.cost) ≡ true)) }
    ensures asked { IfOk result
        (λ o. IfSome o (λ s. list_all (fits a.now.rules.properties) s.asked ≡ true)) }
{
    if rule >= a.rules.irules.as_slice().len() {
        return Ok(None);
    }
    let step = i_step(alloc, a, c, catalog, rule, t)?;
    Ok(step)
}

/// The trees, each with the physical properties that are asked of it. Where there are more of one
/// than of the other, those past the end are left out.
pub fn each_asked(
    alloc: Global,
    physical: &Mask,
    asked: &[Desc],
    trees: &[Tree],
) -> Result<Vec<Tree>, Memory>
    ensures { IfOk result (λ ts. map seen_tree ts.items
        ≡ spec.each_asked physical.now asked.now (map seen_tree trees.now)) }
{
    let places = asked.len().min(trees.len());
    let mut made = Vec::with_capacity(alloc, places)?;
    for place in 0..places {
        let tree = trees[place].ask(alloc, physical, &asked[place])?;
        made.push(tree)?;
    }
    Ok(made)
}

/// The descriptor that the step gives the algorithm, over the costs of its inputs.
fn costed(a: &Accepted, step: IStep, costs: &[u64]) -> Desc
    requires over { is_over (length costs.now) (seen_form step.cost) ≡ true }
    requires capped { All (λ c. c ≤ CAP) costs.now }
    ensures { result ≡ spec.costed (seen_rules a.now.rules) (seen_step step) costs.now }
{
    let IStep { before, cost, .. } = step;
    let mut desc = before;
    set_cost(&a.rules, cost.value(costs), &mut desc);
    desc
}

/// The plan by the rule of that number over plans of its inputs, with the descriptor that the step
/// gives at their costs.
pub fn plan_by(
    alloc: Global,
    a: &Accepted,
    rule: usize,
    step: IStep,
    plans: Items<Plan>,
) -> Result<Plan, Memory>
    requires over { is_over (length plans) (seen_form step.cost) ≡ true }
    requires capped { All (λ p. spec.cost (seen_rules a.now.rules) (seen_plan p) ≤ CAP) plans }
    ensures { IfOk result
        (λ p. seen_plan p ≡ spec.plan_by (seen_rules a.now.rules) rule (seen_step step)
        (map seen_plan plans)) }
{
    let costs = costs_of(alloc, a, plans.as_slice())?;
    let desc = costed(a, step, costs.as_slice());
    Ok(Plan::Alg {
        rule,
        desc,
        inputs: plans,
    })
}

/// Whether the plan implements the tree. A file's plan implements the file of its name with the
/// physical properties that the catalog gives it. An algorithm's plan implements a tree by a rule
/// that applies at its root, with the descriptor that the rule gives at the costs of the inputs,
/// over plans that implement the input trees after what is asked of them. The plan may name rules
/// that are not declared, and have any inputs.
#[cycle(implements)]
pub fn implements(
    alloc: Global,
    a: &Accepted,
    c: &Classes,
    catalog: &Catalog,
    p: &Plan,
    t: &Tree,
) -> Result<bool, Memory>
    requires classes { c.now ≡ classes_of (seen_rules a.now.rules) }
    requires tree { IsTree (seen_rules a.now.rules) catalog.now (seen_tree t.now) }
    ensures { IfOk result (λ b. IsTrue b ↔ Implements (seen_rules a.now.rules) catalog.now
        (seen_plan p.now) (seen_tree t.now)) }
{
    match p {
        Plan::File { name } => {
            let same = file_implements(alloc, a, c, catalog, name, t)?;
            Ok(same)
        }
        Plan::Alg { rule, desc, inputs } => {
            let Some(step) = step_of(alloc, a, c, catalog, *rule, t)? else {
                return Ok(false);
            };
            let plans = inputs.as_slice();
            let asked = each_asked(alloc, c.physical(), step.asked.as_slice(), t.inputs())?;
            if !all_implement(alloc, a, c, catalog, plans, asked.as_slice())? {
                return Ok(false);
            }
            let costs = costs_of(alloc, a, plans)?;
            Ok(desc.same(&costed(a, step, costs.as_slice())))
        }
    }
}

/// Whether there are as many plans as trees, and each implements the tree at its place.
#[cycle(implements)]
fn all_implement(
    alloc: Global,
    a: &Accepted,
    c: &Classes,
    catalog: &Catalog,
    plans: &[Plan],
    trees: &[Tree],
) -> Result<bool, Memory>
    requires classes { c.now ≡ classes_of (seen_rules a.now.rules) }
    requires trees { AreTrees (seen_rules a.now.rules) catalog.now
        (trees_of (map seen_tree trees.now)) }
    ensures { IfOk result (λ b. IsTrue b ↔ AllImplement (seen_rules a.now.rules) catalog.now
        (trees_of (map seen_plan plans.now)) (map seen_tree trees.now)) }
{
    if plans.len() != trees.len() {
        return Ok(false);
    }
    for (i, plan) in plans.iter().enumerate() {
        if !implements(alloc, a, c, catalog, plan, &trees[i])? {
            return Ok(false);
        }
    }
    Ok(true)
}
