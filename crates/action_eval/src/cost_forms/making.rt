ghost use Rattle.std.specs.Prelude.{◌≡◌, ◌≤◌, ℕ, List, Some, IfOk, length, true, codes};
ghost use Rattle.std.specs.Str.{bytes_eq};
ghost use Rattle.pr_value.specs.Repeats.{are_distinct};
ghost use Rattle.pr_value.specs.Values.{truth_in};
ghost use Rattle.pr_value.specs.declared.kind.Kind.TheVariants as kind;
ghost use Rattle.rule_ast.specs.CostForms as costs;
ghost use Rattle.rule_ast.specs.CostForms.{is_cost_form, reads_cost_of};
ghost use Rattle.rule_ast.specs.Descs.{names_of};
ghost use Rattle.rule_ast.specs.Seen.{seen_expr};
ghost use Rattle.action_eval.specs.Cost.{cost_of, is_over};
ghost use Rattle.action_eval.specs.Environments.{IsSound, type_in, value_here};
ghost use Rattle.action_eval.specs.FormOf.{IsCost, IsFormOf};
ghost use Rattle.action_eval.specs.Forms.{cost_in, form, number_here, with_costs};
ghost use Rattle.action_eval.specs.SeenForms.{seen_form};
ghost use Rattle.action_eval.specs.SeenEnv.{seen_env};

use crate::cost_forms::form::{CostForm, boxed};
use crate::cost_forms::places::place_of;
use crate::{Env, eval};
use catalog::Catalog;
use pr_value::{CAP, Memory, Symbol, number_in, truth_in};
use rule_ast::{BinOp, Expr, ImplIn, cost_name, reads_cost};
use std::alloc::Global;

/// The form of a cost expression over the costs of these inputs, by their places. What reads no cost
/// is one number, at its value in the environment.
pub fn cost_form(
    alloc: Global,
    e: &Expr,
    inputs: &[ImplIn],
    env: &Env,
    catalog: &Catalog,
) -> Result<CostForm, Memory>
    requires sound { IsSound (seen_env env.now) }
    requires typed { type_in (seen_env env.now) (seen_expr e.now) ≡ Some kind.Num }
    requires form { is_cost_form (cost_in (seen_env env.now)) (seen_expr e.now) ≡ true }
    requires different { are_distinct (names_of inputs.now) ≡ true }
    requires of_inputs { reads_cost_of (cost_in (seen_env env.now)) (names_of inputs.now) (seen_expr e.now) ≡ true }
    ensures form { IfOk result (λ f. seen_form f ≡ form (names_of inputs.now) (seen_env env.now) catalog.now (seen_expr e.now)) }
    ensures over { IfOk result (λ f. is_over (length inputs.now) (seen_form f) ≡ true) }
    ensures means { IfOk result (λ f. (costs : List ℕ) → length costs ≡ length inputs.now
        → cost_of (seen_form f) costs ≡ number_here (with_costs (names_of inputs.now) costs (seen_env env.now)) catalog.now (seen_expr e.now)) }
{
    form_of(alloc, e, inputs, env, catalog)
}

fn form_of(
    alloc: Global,
    e: &Expr,
    inputs: &[ImplIn],
    env: &Env,
    catalog: &Catalog,
) -> Result<CostForm, Memory>
    requires { IsCost (names_of inputs.now) (seen_env env.now) (seen_expr e.now) }
    ensures { IfOk result (λ f. IsFormOf (names_of inputs.now) (length inputs.now) (seen_env env.now) catalog.now (seen_expr e.now) (seen_form f)) }
{
    if !reads(e, env) {
        return Ok(CostForm::Number(number_at(alloc, e, env, catalog)?));
    }
    match e {
        Expr::Read { desc, .. } => Ok(CostForm::Input(place_of(inputs, desc))),
        Expr::Binary { left, op, right } => match op {
            BinOp::Add => {
                let left = form_of(alloc, left.get(), inputs, env, catalog)?;
                let right = form_of(alloc, right.get(), inputs, env, catalog)?;
                Ok(CostForm::Sum(boxed(alloc, left)?, boxed(alloc, right)?))
            }
            BinOp::Mul => {
                let number = number_at(alloc, left.get(), env, catalog)?;
                let part = form_of(alloc, right.get(), inputs, env, catalog)?;
                Ok(CostForm::Multiple(number, boxed(alloc, part)?))
            }
            _ => unreachable!(),
        },
        Expr::Call { name, args } => match args.as_slice() {
            [a, b] => {
                let a = boxed(alloc, form_of(alloc, a, inputs, env, catalog)?)?;
                let b = boxed(alloc, form_of(alloc, b, inputs, env, catalog)?)?;
                if is_max(name) {
                    return Ok(CostForm::Greater(a, b));
                }
                Ok(CostForm::Lesser(a, b))
            }
            [test, a, b] => {
                if truth_at(alloc, test, env, catalog)? {
                    return form_of(alloc, a, inputs, env, catalog);
                }
                form_of(alloc, b, inputs, env, catalog)
            }
            _ => unreachable!(),
        },
        _ => unreachable!(),
    }
}

/// Whether the expression reads the cost of a descriptor.
fn reads(e: &Expr, env: &Env) -> bool
    ensures { result ≡ costs.reads_cost (cost_in (seen_env env.now)) (seen_expr e.now) }
{
    reads_cost(e, cost_name(env.rules().properties.as_slice()))
}

fn is_max(name: &Symbol) -> bool
    ensures { result ≡ bytes_eq name.now (codes "max") }
{
    name.as_slice() == b"max".as_slice()
}

/// The number that the expression comes to.
fn number_at(alloc: Global, e: &Expr, env: &Env, catalog: &Catalog) -> Result<u64, Memory>
    requires sound { IsSound (seen_env env.now) }
    requires typed { type_in (seen_env env.now) (seen_expr e.now) ≡ Some kind.Num }
    ensures value { IfOk result (λ n. n ≡ number_here (seen_env env.now) catalog.now (seen_expr e.now)) }
    ensures within { IfOk result (λ n. n ≤ CAP) }
{
    let value = eval(alloc, e, env, catalog)?;
    Ok(number_in(&value))
}

/// The truth that the expression comes to.
fn truth_at(alloc: Global, e: &Expr, env: &Env, catalog: &Catalog) -> Result<bool, Memory>
    ensures { IfOk result (λ b. b ≡ truth_in (value_here (seen_env env.now) catalog.now (seen_expr e.now))) }
{
    let value = eval(alloc, e, env, catalog)?;
    Ok(truth_in(&value))
}
