// The run of a T-rule.
ghost use Rattle.std.specs.Prelude.{◌≡◌, true, option_map, IfOk, IfSome};
ghost use Rattle.std.specs.List.{list_all};
ghost use Rattle.action_eval.specs.SeenEnv.{seen_env};
ghost use Rattle.descriptor_types.specs.Descriptors.{fits};
ghost use Rattle.rule_ast.specs.Descs as descs;
ghost use Rattle.rule_ast.specs.Seen.{seen_left, seen_right, seen_trule};
ghost use Rattle.rule_ast.specs.SeenRules.{seen_rules};
ghost use Rattle.rule_runs.specs.Conditions.{AreSlotsOf, CanRun};
ghost use Rattle.rule_runs.specs.Ready.{IsReady};
ghost use Rattle.rule_runs.specs.Runs as spec;

use crate::scopes::{Running, descs_of, env_over, passes, push_defaults};
use crate::slots::Slots;
use action_eval::{Env, run_statements};
use catalog::Catalog;
use descriptor_types::{Desc, Layout};
use pr_value::{Items, Memory, Symbol};
use rule_ast::{Rules, TRule, right_descs, trule_descs};
use std::alloc::Global;

/// The environment of a rule with these names on its right side, over its slots.
fn trule_env<'a>(
    alloc: Global,
    running: &Running<'a>,
    rule: &TRule,
    right: &[Symbol],
    slots: &Slots,
) -> Result<Env<'a>, Memory>
    requires rule { CanRun (seen_rules running.now.rules.now) (seen_trule rule.now) }
    requires right { right.now ≡ descs.right_descs (seen_right rule.now.right) }
    requires slots { AreSlotsOf (seen_rules running.now.rules.now) (seen_left rule.now.left) slots.now }
    ensures env { IfOk result
        (λ env. seen_env env ≡ spec.env_over (seen_rules running.now.rules.now)
        (spec.trule_scope (seen_rules running.now.rules.now) (seen_trule rule.now) slots.now)) }
    ensures ready { IfOk result (λ env. IsReady (seen_rules running.now.rules.now)
        (descs.trule_descs (seen_trule rule.now)) (seen_env env)) }
{
    let names = trule_descs(alloc, rule)?;
    let mut descs = slots.all(alloc)?;
    push_defaults(alloc, running.layout, right, &mut descs)?;
    let env = env_over(
        alloc,
        running.rules,
        running.layout,
        names.as_slice(),
        descs.as_slice(),
    )?;
    Ok(env)
}

/// The environment after the statements of a rule, or none where its test is false.
fn trule_run<'a>(
    alloc: Global,
    running: &Running<'a>,
    rule: &TRule,
    right: &[Symbol],
    slots: &Slots,
) -> Result<Option<Env<'a>>, Memory>
    requires rule { CanRun (seen_rules running.now.rules.now) (seen_trule rule.now) }
    requires right { right.now ≡ descs.right_descs (seen_right rule.now.right) }
    requires slots { AreSlotsOf (seen_rules running.now.rules.now) (seen_left rule.now.left) slots.now }
    ensures run { IfOk result (λ o. option_map seen_env o
        ≡ spec.trule_run (seen_rules running.now.rules.now) running.now.catalog.now
        (seen_trule rule.now) slots.now) }
    ensures ready { IfOk result (λ o. IfSome o (λ env. IsReady (seen_rules running.now.rules.now)
        (descs.trule_descs (seen_trule rule.now)) (seen_env env))) }
{
    let mut env = trule_env(alloc, running, rule, right, slots)?;
    if !passes(alloc, &rule.body, &mut env, running.catalog)? {
        return Ok(None);
    }
    run_statements(alloc, rule.body.post.as_slice(), &mut env, running.catalog)?;
    Ok(Some(env))
}

/// The descriptors of the nodes of a T-rule's right side, the root first, in the order of the text,
/// or none where the rule's test is false. The statements run over the slots as the rule's left side
/// sees them: a node's descriptor whole, of a stream its view.
pub fn run_trule(
    alloc: Global,
    rules: &Rules,
    layout: &Layout,
    catalog: &Catalog,
    rule: &TRule,
    slots: &Slots,
) -> Result<Option<Items<Desc>>, Memory>
    requires layout { layout.now ≡ rules.now.properties }
    requires rule { CanRun (seen_rules rules.now) (seen_trule rule.now) }
    requires slots { AreSlotsOf (seen_rules rules.now) (seen_left rule.now.left) slots.now }
    ensures made { IfOk result (λ o. o
        ≡ spec.trule_made (seen_rules rules.now) catalog.now (seen_trule rule.now) slots.now) }
    ensures fit { IfOk result (λ o. IfSome o (λ ds. list_all (fits rules.now.properties) ds ≡ true)) }
{
    let running = Running {
        rules,
        layout,
        catalog,
    };
    let right = right_descs(alloc, &rule.right)?;
    let Some(env) = trule_run(alloc, &running, rule, right.as_slice(), slots)? else {
        return Ok(None);
    };
    let descs = descs_of(alloc, &env, right.as_slice())?;
    Ok(Some(descs))
}
