// The tree of a query, bottom-up.
ghost use Rattle.std.specs.Prelude.{◌≡◌, ◌++◌, ◌∷◌, [], length, map, None, IfErr, IfOk, OnOk};
ghost use Rattle.action_eval.specs.Environments.{IsSound};
ghost use Rattle.action_eval.specs.SeenEnv.{seen_env};
ghost use Rattle.descriptor_types.specs.Descriptors.{plain, with_value};
ghost use Rattle.descriptor_types.specs.Labels.{seen_tree};
ghost use Rattle.pr_value.specs.Trees.{tree, trees_of};
ghost use Rattle.property_classes.specs.Classes.{classes_of};
ghost use Rattle.query_build.specs.Built.{built_operator};
ghost use Rattle.query_build.specs.Faultless.{IsDeclared, IsRight, IsFaultless, AreFaultless};
ghost use Rattle.query_build.specs.Query as spec;
ghost use Rattle.query_build.specs.Query.{query_tree};
ghost use Rattle.query_build.specs.Refusals.{IsTold, first_setting, is_wrong_setting, refusal_of};
ghost use Rattle.query_build.specs.Query.{operator_scope};
ghost use Rattle.rule_runs.specs.Runs.{env_over};
ghost use Rattle.rule_trees.specs.Trees.{IsDesc, IsTree, AreTrees};
ghost use Rattle.rule_trees.specs.Views.{view_in};
ghost use Rattle.rule_ast.specs.Seen.{seen_operator, seen_query};
ghost use Rattle.rule_ast.specs.SeenRules.{seen_rules};
ghost use Rattle.rule_ast.specs.Syntax.{QueryLabel};

use crate::files::listed_desc;
use crate::literals::literal_value;
use crate::operators::declared_at;
use crate::refusal::QueryRefusal;
use crate::refusing::refused;
use action_eval::{Env, run_statements};
use catalog::Catalog;
use descriptor_types::{Desc, Layout, Tree, push_views};
use pr_value::{Items, Memory, Symbol};
use property_classes::Classes;
use rule_ast::{Operator, QueryText, Setting, operator_descs};
use rule_runs::{desc_of, env_over, operator_at};
use rule_trees::Under;
use rule_types::Accepted;
use std::alloc::Global;

// ---- files

fn file_tree(alloc: Global, under: &Under, name: &Symbol) -> Result<Tree, Memory>
    requires right { IsRight (seen_rules under.now.rules.now) under.now.catalog.now
        (QueryLabel.file name.now) 0 }
    ensures tree { IfOk result (λ t. seen_tree t
        ≡ query_tree (seen_rules under.now.rules.now) under.now.catalog.now
        (tree (QueryLabel.file name.now) [])) }
    ensures sound { IfOk result
        (λ t. IsTree (seen_rules under.now.rules.now) under.now.catalog.now (seen_tree t)) }
{
    let desc = listed_desc(alloc, under.layout, under.catalog, name)?;
    let name = name.copy(alloc)?;
    Ok(Tree::File { name, desc })
}

// ---- operators

fn set_one(alloc: Global, layout: &Layout, setting: &Setting, desc: &mut Desc) -> Result<(), Memory>
    requires long { length desc.old ≡ length layout.now }
    ensures set { OnOk result (desc.new ≡ with_value layout.now setting.now.property
        (spec.literal_value setting.now.value) desc.old) }
    ensures long { length desc.new ≡ length layout.now }
{
    let Some(place) = layout.find(&setting.property) else {
        return Ok(());
    };
    let value = literal_value(alloc, &setting.value)?;
    desc.set(place, value);
    Ok(())
}

/// The defaults, changed by the settings in order.
fn set_desc(alloc: Global, layout: &Layout, settings: &[Setting]) -> Result<Desc, Memory>
    ensures { IfOk result
        (λ d. d ≡ spec.with_settings layout.now settings.now (plain layout.now)) }
{
    let mut desc = Desc::plain(alloc, layout)?;
    for setting in settings {
        set_one(alloc, layout, setting, &mut desc)?;
    }
    Ok(desc)
}

/// The views of the inputs, and then the defaults, changed by the settings.
fn seen_descs(
    alloc: Global,
    under: &Under,
    settings: &[Setting],
    inputs: &[Tree],
) -> Result<Items<Desc>, Memory>
    ensures { IfOk result
        (λ ds. ds ≡ map (view_in (seen_rules under.now.rules.now)) (map seen_tree inputs.now)
        ++ spec.with_settings under.now.rules.now.properties settings.now
        (plain under.now.rules.now.properties) ∷ []) }
{
    let mut descs = Items::new(alloc);
    push_views(
        alloc,
        under.layout,
        under.classes.seen(),
        inputs,
        &mut descs,
    )?;
    let own = set_desc(alloc, under.layout, settings)?;
    descs.push(own)?;
    Ok(descs)
}

/// The environment in which an operator's initializer runs.
fn initial_env<'a>(
    alloc: Global,
    under: &Under<'a>,
    operator: &Operator,
    settings: &[Setting],
    inputs: &[Tree],
) -> Result<Env<'a>, Memory>
    requires declared { IsDeclared (seen_rules under.now.rules.now) (seen_operator operator.now) }
    requires right { first_setting (is_wrong_setting (seen_rules under.now.rules.now)) settings.now
        ≡ None }
    requires as_many { length operator.now.views ≡ length inputs.now }
    requires sound { AreTrees (seen_rules under.now.rules.now) under.now.catalog.now
        (trees_of (map seen_tree inputs.now)) }
    ensures env { IfOk result (λ env. seen_env env ≡ env_over (seen_rules under.now.rules.now)
        (operator_scope (seen_operator operator.now)
        (map (view_in (seen_rules under.now.rules.now)) (map seen_tree inputs.now))
        (spec.with_settings under.now.rules.now.properties settings.now
        (plain under.now.rules.now.properties)))) }
    ensures sound { IfOk result (λ env. IsSound (seen_env env)) }
{
    let names = operator_descs(alloc, operator)?;
    let descs = seen_descs(alloc, under, settings, inputs)?;
    let env = env_over(
        alloc,
        under.rules,
        under.layout,
        names.as_slice(),
        descs.as_slice(),
    )?;
    Ok(env)
}

/// The descriptor that an operator's initializer leaves.
fn initial_desc(
    alloc: Global,
    under: &Under,
    operator: &Operator,
    settings: &[Setting],
    inputs: &[Tree],
) -> Result<Desc, Memory>
    requires declared { IsDeclared (seen_rules under.now.rules.now) (seen_operator operator.now) }
    requires right { first_setting (is_wrong_setting (seen_rules under.now.rules.now)) settings.now
        ≡ None }
    requires as_many { length operator.now.views ≡ length inputs.now }
    requires sound { AreTrees (seen_rules under.now.rules.now) under.now.catalog.now
        (trees_of (map seen_tree inputs.now)) }
    ensures initial { IfOk result
        (λ d. d ≡ spec.initial_desc (seen_rules under.now.rules.now) under.now.catalog.now
        (seen_operator operator.now) settings.now
        (map (view_in (seen_rules under.now.rules.now)) (map seen_tree inputs.now))) }
    ensures sound { IfOk result (λ d. IsDesc (seen_rules under.now.rules.now) d) }
{
    let mut env = initial_env(alloc, under, operator, settings, inputs)?;
    run_statements(alloc, operator.init.as_slice(), &mut env, under.catalog)?;
    let desc = desc_of(alloc, &env, &operator.own)?;
    Ok(desc)
}

/// The tree of an operator over the trees of its inputs.
fn operator_tree(
    alloc: Global,
    under: &Under,
    op: &Symbol,
    settings: &[Setting],
    inputs: Items<Tree>,
) -> Result<Tree, Memory>
    requires right { IsRight (seen_rules under.now.rules.now) under.now.catalog.now
        (QueryLabel.operator op.now settings.now) (length inputs) }
    requires sound { AreTrees (seen_rules under.now.rules.now) under.now.catalog.now
        (trees_of (map seen_tree inputs)) }
    ensures tree { IfOk result (λ t. seen_tree t
        ≡ built_operator (seen_rules under.now.rules.now) under.now.catalog.now op.now settings.now
        (map seen_tree inputs)) }
    ensures sound { IfOk result
        (λ t. IsTree (seen_rules under.now.rules.now) under.now.catalog.now (seen_tree t)) }
{
    let operators = under.rules.operators.as_slice();
    let place = operator_at(operators, op);
    let operator = declared_at(operators, place);
    let desc = initial_desc(alloc, under, operator, settings, inputs.as_slice())?;
    Ok(Tree::Node {
        op: place,
        desc,
        inputs,
    })
}

// ---- queries

#[cycle(tree)]
fn tree_of(alloc: Global, under: &Under, query: &QueryText) -> Result<Tree, Memory>
    requires right { IsFaultless (seen_rules under.now.rules.now) under.now.catalog.now
        (seen_query query.now) }
    ensures tree { IfOk result (λ t. seen_tree t
        ≡ query_tree (seen_rules under.now.rules.now) under.now.catalog.now (seen_query query.now)) }
    ensures sound { IfOk result
        (λ t. IsTree (seen_rules under.now.rules.now) under.now.catalog.now (seen_tree t)) }
{
    match query {
        QueryText::File(name) => file_tree(alloc, under, name),
        QueryText::Node {
            op,
            settings,
            inputs,
        } => {
            let inputs = all_trees(alloc, under, inputs.as_slice())?;
            operator_tree(alloc, under, op, settings.as_slice(), inputs)
        }
    }
}

#[cycle(tree)]
fn all_trees(alloc: Global, under: &Under, queries: &[QueryText]) -> Result<Items<Tree>, Memory>
    requires right { AreFaultless (seen_rules under.now.rules.now) under.now.catalog.now
        (trees_of (map seen_query queries.now)) }
    ensures trees { IfOk result (λ ts. map seen_tree ts
        ≡ map (λ q. query_tree (seen_rules under.now.rules.now) under.now.catalog.now (seen_query q))
        queries.now) }
    ensures sound { IfOk result
        (λ ts. AreTrees (seen_rules under.now.rules.now) under.now.catalog.now
        (trees_of (map seen_tree ts))) }
{
    let mut trees = Items::new(alloc);
    for query in queries {
        let tree = tree_of(alloc, under, query)?;
        trees.push(tree)?;
    }
    Ok(trees)
}

/// The tree of a query: a file has the catalog's descriptor, and an operator the defaults, changed
/// by the settings in order and then by its initializer over the views of its inputs. Without a
/// tree the refusal is the first that holds, and names where it holds first.
pub fn build(
    alloc: Global,
    a: &Accepted,
    c: &Classes,
    catalog: &Catalog,
    q: &QueryText,
) -> Result<Tree, QueryRefusal>
    requires classes { c.now ≡ classes_of (seen_rules a.now.rules) }
    ensures built { IfOk result
        (λ t. refusal_of (seen_rules a.now.rules) catalog.now (seen_query q.now) ≡ None) }
    ensures tree { IfOk result
        (λ t. seen_tree t ≡ query_tree (seen_rules a.now.rules) catalog.now (seen_query q.now)) }
    ensures sound { IfOk result (λ t. IsTree (seen_rules a.now.rules) catalog.now (seen_tree t)) }
    ensures refused { IfErr result
        (λ e. IsTold (refusal_of (seen_rules a.now.rules) catalog.now (seen_query q.now)) e) }
{
    if let Some(refusal) = refused(alloc, a.rules(), catalog, q)? {
        return Err(refusal);
    }
    let under = Under {
        rules: a.rules(),
        layout: a.layout(),
        classes: c,
        catalog,
    };
    let tree = tree_of(alloc, &under, q)?;
    Ok(tree)
}
