// The environments in which the statements of rules run.
ghost use Rattle.std.specs.Prelude.{◌≡◌, ◌++◌, true, length, map, zip, Some, None, [], if◌then◌else◌, IfOk, OnOk};
ghost use Rattle.std.specs.List.{list_all};
ghost use Rattle.action_eval.specs.Environments.{IsSound, context_of};
ghost use Rattle.action_eval.specs.Meaning.{desc_in};
ghost use Rattle.action_eval.specs.SeenEnv.{seen_env};
ghost use Rattle.descriptor_types.specs.Descriptors.{fits, plain};
ghost use Rattle.pr_value.specs.Repeats.{are_distinct};
ghost use Rattle.rule_ast.specs.Seen.{seen_body};
ghost use Rattle.rule_ast.specs.SeenRules.{seen_rules};
ghost use Rattle.rule_ast.specs.Typing.{are_typed, is_typed_body, signatures_of};
ghost use Rattle.rule_runs.specs.Runs as spec;
ghost use Rattle.rule_runs.specs.Runs.{tested};

use action_eval::{Env, eval, run_statements};
use catalog::Catalog;
use descriptor_types::{Desc, Layout};
use pr_value::{Items, Memory, Symbol, truth_in};
use rule_ast::{Body, Rules};
use std::alloc::Global;

/// Rules whose helpers are well typed, with the layout of their properties, and a catalog.
#[derive(Clone, Copy)]
pub(crate) struct Running<'a> {
    pub rules: &'a Rules,
    pub layout: &'a Layout,
    pub catalog: &'a Catalog,
    pub ghost laid_out: { layout.now ≡ rules.now.properties },
    pub ghost typed: { are_typed rules.now.properties [] (seen_rules rules.now).helpers ≡ true },
}

/// Appends the defaults for each of these names.
pub(crate) fn push_defaults(
    alloc: Global,
    layout: &Layout,
    names: &[Symbol],
    out: &mut Items<Desc>,
) -> Result<(), Memory>
    ensures { OnOk result (out.new ≡ out.old ++ map (λ d. plain layout.now) names.now) }
{
    for _name in names {
        let desc = Desc::plain(alloc, layout)?;
        out.push(desc)?;
    }
    Ok(())
}

/// The environment of copies of these descriptors under these names, in their order.
pub fn env_over<'a>(
    alloc: Global,
    rules: &'a Rules,
    layout: &'a Layout,
    names: &[Symbol],
    descs: &[Desc],
) -> Result<Env<'a>, Memory>
    requires layout { layout.now ≡ rules.now.properties }
    requires helpers { are_typed rules.now.properties [] (seen_rules rules.now).helpers ≡ true }
    requires as_many { length names.now ≡ length descs.now }
    requires different { are_distinct names.now ≡ true }
    requires fit { list_all (fits rules.now.properties) descs.now ≡ true }
    ensures env { IfOk result
        (λ env. seen_env env ≡ spec.env_over (seen_rules rules.now) (zip names.now descs.now)) }
    ensures sound { IfOk result (λ env. IsSound (seen_env env)) }
{
    let mut env = Env::new(alloc, rules, layout);
    for (i, name) in names.iter().enumerate() {
        let desc = descs[i].copy(alloc)?;
        env.bind(alloc, name, desc)?;
    }
    Ok(env)
}

/// Runs the statements before the test, and says whether the test is true then.
pub(crate) fn passes(
    alloc: Global,
    body: &Body,
    env: &mut Env,
    catalog: &Catalog,
) -> Result<bool, Memory>
    requires sound { IsSound (seen_env env.old) }
    requires typed { is_typed_body (seen_env env.old).rules.properties
        (signatures_of (seen_env env.old).rules.helpers) (context_of (seen_env env.old))
        (seen_body body.now) ≡ true }
    ensures tested { IfOk result
        (λ passes. tested catalog.now (seen_body body.now) (seen_env env.old)
        ≡ (if passes then Some (seen_env env.new) else None)) }
    ensures sound { IsSound (seen_env env.new) }
    ensures context { context_of (seen_env env.new) ≡ context_of (seen_env env.old) }
{
    run_statements(alloc, body.pre.as_slice(), env, catalog)?;
    let value = eval(alloc, &body.test, env, catalog)?;
    Ok(truth_in(&value))
}

/// A copy of the descriptor of that name, or an empty one where there is none.
pub fn desc_of(alloc: Global, env: &Env, name: &Symbol) -> Result<Desc, Memory>
    ensures { IfOk result (λ d. d ≡ desc_in (seen_env env.now).descs name.now) }
{
    match env.desc(name) {
        Some(desc) => desc.copy(alloc),
        None => Desc::plain(alloc, &Layout::new(alloc)),
    }
}

/// Copies of the descriptors of these names.
pub(crate) fn descs_of(alloc: Global, env: &Env, names: &[Symbol]) -> Result<Items<Desc>, Memory>
    ensures { IfOk result (λ ds. ds ≡ map (desc_in (seen_env env.now).descs) names.now) }
{
    let mut descs = Items::new(alloc);
    for name in names {
        let desc = desc_of(alloc, env, name)?;
        descs.push(desc)?;
    }
    Ok(descs)
}
