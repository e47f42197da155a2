// The run of an I-rule.
ghost use Rattle.std.specs.Prelude.{◌≡◌, true, map, length, option_map, IfOk, IfSome, OnOk};
ghost use Rattle.std.specs.List.{list_all};
ghost use Rattle.action_eval.specs.Cost.{is_over};
ghost use Rattle.action_eval.specs.Environments.{after};
ghost use Rattle.action_eval.specs.Forms.{form};
ghost use Rattle.action_eval.specs.SeenEnv.{seen_env};
ghost use Rattle.action_eval.specs.SeenForms.{seen_form, seen_step};
ghost use Rattle.descriptor_types.specs.Descriptors.{fits};
ghost use Rattle.rule_ast.specs.CostGiven.{but_last};
ghost use Rattle.rule_ast.specs.Descs as descs;
ghost use Rattle.rule_ast.specs.Seen.{seen_irule, seen_left};
ghost use Rattle.rule_ast.specs.SeenRules.{seen_rules};
ghost use Rattle.rule_runs.specs.Conditions.{AreSlotsOf, CanImplement};
ghost use Rattle.rule_runs.specs.Ready.{IsReady};
ghost use Rattle.rule_runs.specs.Runs as spec;

use crate::scopes::{Running, desc_of, env_over, passes};
use crate::slots::{Slots, push_copies};
use action_eval::{CostForm, Env, IStep, cost_form, run_statements};
use catalog::Catalog;
use descriptor_types::{Desc, Layout, Mask};
use pr_value::{Items, Memory};
use rule_ast::{IRule, Rules, cost_given, cost_name, irule_descs};
use std::alloc::Global;

/// The environment of a rule over its slots.
fn irule_env<'a>(
    alloc: Global,
    running: &Running<'a>,
    rule: &IRule,
    slots: &Slots,
) -> Result<Env<'a>, Memory>
    requires rule { CanImplement (seen_rules running.now.rules.now) (seen_irule rule.now) }
    requires slots { AreSlotsOf (seen_rules running.now.rules.now) (seen_left rule.now.left) slots.now }
    ensures env { IfOk result (λ env. seen_env env
        ≡ spec.env_over (seen_rules running.now.rules.now)
        (spec.irule_scope (seen_irule rule.now) slots.now)) }
    ensures ready { IfOk result (λ env. IsReady (seen_rules running.now.rules.now)
        (descs.irule_descs (seen_irule rule.now)) (seen_env env)) }
{
    let names = irule_descs(alloc, rule)?;
    let mut descs = slots.all(alloc)?;
    push_copies(alloc, slots.streams.as_slice(), &mut descs)?;
    let root = slots.root(alloc)?;
    descs.push(root)?;
    let env = env_over(
        alloc,
        running.rules,
        running.layout,
        names.as_slice(),
        descs.as_slice(),
    )?;
    Ok(env)
}

/// The environment after the statements before the test, or none where it is false.
fn irule_tested<'a>(
    alloc: Global,
    running: &Running<'a>,
    rule: &IRule,
    slots: &Slots,
) -> Result<Option<Env<'a>>, Memory>
    requires rule { CanImplement (seen_rules running.now.rules.now) (seen_irule rule.now) }
    requires slots { AreSlotsOf (seen_rules running.now.rules.now) (seen_left rule.now.left) slots.now }
    ensures tested { IfOk result (λ o. option_map seen_env o
        ≡ spec.tested running.now.catalog.now (seen_irule rule.now).body
        (spec.env_over (seen_rules running.now.rules.now)
        (spec.irule_scope (seen_irule rule.now) slots.now))) }
    ensures ready { IfOk result (λ o. IfSome o (λ env. IsReady (seen_rules running.now.rules.now)
        (descs.irule_descs (seen_irule rule.now)) (seen_env env))) }
{
    let mut env = irule_env(alloc, running, rule, slots)?;
    if passes(alloc, &rule.body, &mut env, running.catalog)? {
        Ok(Some(env))
    } else {
        Ok(None)
    }
}

/// The physical part of the descriptor of each input.
fn asked_of_inputs(
    alloc: Global,
    running: &Running,
    physical: &Mask,
    rule: &IRule,
    env: &Env,
) -> Result<Items<Desc>, Memory>
    requires mask { length physical.now ≡ length running.now.rules.now.properties }
    requires ready { IsReady (seen_rules running.now.rules.now)
        (descs.irule_descs (seen_irule rule.now)) (seen_env env.now) }
    ensures asked { IfOk result
        (λ ds. ds ≡ spec.asked_of_inputs (seen_rules running.now.rules.now) physical.now
        (seen_irule rule.now) (seen_env env.now)) }
    ensures fit { IfOk result
        (λ ds. list_all (fits running.now.rules.now.properties) ds ≡ true) }
{
    let mut asked = Items::new(alloc);
    for input in rule.right.inputs.as_slice() {
        let desc = desc_of(alloc, env, &input.desc)?;
        let view = desc.view(alloc, running.layout, physical)?;
        asked.push(view)?;
    }
    Ok(asked)
}

/// The cost that the last statement of the rule gives.
fn cost_in(alloc: Global, running: &Running, rule: &IRule, env: &Env) -> Result<CostForm, Memory>
    requires rule { CanImplement (seen_rules running.now.rules.now) (seen_irule rule.now) }
    requires ready { IsReady (seen_rules running.now.rules.now)
        (descs.irule_descs (seen_irule rule.now)) (seen_env env.now) }
    ensures form { IfOk result (λ f. seen_form f ≡ form (descs.names_of rule.now.right.inputs)
        (seen_env env.now) running.now.catalog.now
        (spec.cost_expr (seen_rules running.now.rules.now) (seen_irule rule.now))) }
    ensures over { IfOk result (λ f. is_over (length rule.now.right.inputs) (seen_form f) ≡ true) }
{
    let name = cost_name(running.rules.properties.as_slice());
    let Some(cost) = cost_given(rule.body.post.as_slice(), &rule.right.desc, name) else {
        unreachable!()
    };
    cost_form(
        alloc,
        cost,
        rule.right.inputs.as_slice(),
        env,
        running.catalog,
    )
}

/// Runs all statements behind the test but the last, which gives the cost.
fn run_but_last(alloc: Global, running: &Running, rule: &IRule, env: &mut Env) -> Result<(), Memory>
    requires rule { CanImplement (seen_rules running.now.rules.now) (seen_irule rule.now) }
    requires ready { IsReady (seen_rules running.now.rules.now)
        (descs.irule_descs (seen_irule rule.now)) (seen_env env.old) }
    ensures run { OnOk result (seen_env env.new ≡ after (seen_env env.old) running.now.catalog.now
        (but_last (seen_irule rule.now).body.post)) }
    ensures ready { OnOk result (IsReady (seen_rules running.now.rules.now)
        (descs.irule_descs (seen_irule rule.now)) (seen_env env.new)) }
{
    let post = rule.body.post.as_slice();
    let before = &post[..post.len().saturating_sub(1)];
    run_statements(alloc, before, env, running.catalog)?;
    Ok(())
}

/// What is asked of the inputs, the algorithm's descriptor before its cost is set, and the cost.
fn implemented(
    alloc: Global,
    running: &Running,
    physical: &Mask,
    rule: &IRule,
    env: Env,
) -> Result<IStep, Memory>
    requires mask { length physical.now ≡ length running.now.rules.now.properties }
    requires rule { CanImplement (seen_rules running.now.rules.now) (seen_irule rule.now) }
    requires ready { IsReady (seen_rules running.now.rules.now)
        (descs.irule_descs (seen_irule rule.now)) (seen_env env) }
    ensures step { IfOk result
        (λ s. seen_step s ≡ spec.implemented (seen_rules running.now.rules.now) physical.now
        running.now.catalog.now (seen_irule rule.now) (seen_env env.entry)) }
    ensures over { IfOk result (λ s. is_over (length s.asked) (seen_form s.cost) ≡ true) }
    ensures before { IfOk result
        (λ s. fits running.now.rules.now.properties s.before ≡ true) }
    ensures asked { IfOk result
        (λ s. list_all (fits running.now.rules.now.properties) s.asked ≡ true) }
{
    let mut env = env;
    let asked = asked_of_inputs(alloc, running, physical, rule, &env)?;
    run_but_last(alloc, running, rule, &mut env)?;
    let before = desc_of(alloc, &env, &rule.right.desc)?;
    let cost = cost_in(alloc, running, rule, &env)?;
    Ok(IStep {
        asked,
        before,
        cost,
    })
}

/// What an I-rule asks of its inputs, the algorithm's descriptor before its cost is set, and the
/// cost as a function of the inputs' costs, or none where the rule's test is false. What is asked
/// are the properties of the mask.
pub fn run_irule(
    alloc: Global,
    rules: &Rules,
    layout: &Layout,
    physical: &Mask,
    catalog: &Catalog,
    rule: &IRule,
    slots: &Slots,
) -> Result<Option<IStep>, Memory>
    requires layout { layout.now ≡ rules.now.properties }
    requires mask { length physical.now ≡ length layout.now }
    requires rule { CanImplement (seen_rules rules.now) (seen_irule rule.now) }
    requires slots { AreSlotsOf (seen_rules rules.now) (seen_left rule.now.left) slots.now }
    ensures step { IfOk result (λ o. option_map seen_step o ≡ spec.irule_run (seen_rules rules.now)
        physical.now catalog.now (seen_irule rule.now) slots.now) }
    ensures over { IfOk result
        (λ o. IfSome o (λ s. is_over (length s.asked) (seen_form s.cost) ≡ true)) }
    ensures before { IfOk result (λ o. IfSome o (λ s. fits rules.now.properties s.before ≡ true)) }
    ensures asked { IfOk result
        (λ o. IfSome o (λ s. list_all (fits rules.now.properties) s.asked ≡ true)) }
{
    let running = Running {
        rules,
        layout,
        catalog,
    };
    match irule_tested(alloc, &running, rule, slots)? {
        Some(env) => Ok(Some(implemented(alloc, &running, physical, rule, env)?)),
        None => Ok(None),
    }
}
