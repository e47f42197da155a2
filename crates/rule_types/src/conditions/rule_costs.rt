// Conditions on where the cost is assigned and read, and on the form of the costs of I-rules.
ghost use Rattle.std.specs.Prelude.{◌≡◌, ◌||◌, map, option_map, IfOk};
ghost use Rattle.std.specs.Option.{option_copied};
ghost use Rattle.rule_ast.specs.CostGiven as given;
ghost use Rattle.rule_ast.specs.Seen.{seen_expr, seen_irule, seen_stmt};
ghost use Rattle.rule_types.specs.LaterConditions as spec;
ghost use Rattle.rule_types.specs.LaterConditions.{assigns_cost, holds_of, is_cost_read};
ghost use Rattle.rule_types.specs.SeenDeclarations.{seen_declaration};
ghost use Rattle.rule_types.specs.Uses.{any_use_of};

use crate::declaration::Declaration;
use crate::folds::Folds;
use crate::roles::is_null;
use crate::uses::{Use, UseQuestion, any_use, any_use_in_stmts, uses};
use pr_value::{Memory, Symbol};
use rule_ast::{Expr, IRule, ImplIn, Stmt, cost_given, is_cost_form, names_of, reads_cost_of};
use std::alloc::Global;

// The expression that gives the rule's cost.
fn cost_of<'a>(rule: &'a IRule, cost: &[u8]) -> Option<&'a Expr>
    ensures { option_map seen_expr (option_copied result)
        ≡ given.cost_of cost.now (seen_irule rule.now) }
{
    cost_given(rule.body.post.as_slice(), &rule.right.desc, cost)
}

#[tactic(auto, using(crate::proofs::RuleCostLaws::last_laws))]
fn but_last(ss: &[Stmt]) -> &[Stmt]
    ensures { map seen_stmt result.now ≡ given.but_last (map seen_stmt ss.now) }
{
    let count = ss.len().saturating_sub(1);
    &ss[..count]
}

fn post_without_cost<'a>(rule: &'a IRule, cost: &[u8]) -> &'a [Stmt]
    ensures { map seen_stmt result.now ≡ spec.post_without_cost cost.now (seen_irule rule.now) }
{
    let post = rule.body.post.as_slice();
    if cost_of(rule, cost).is_some() {
        but_last(post)
    } else {
        post
    }
}

// Whether the question holds of some use outside of the statement that gives the rule's cost.
fn any_use_without_cost<Q: UseQuestion>(rule: &IRule, cost: &[u8], question: &Q) -> bool
    ensures { result ≡ any_use_of (Q.asked question.now)
        (spec.without_cost cost.now (seen_irule rule.now)) }
{
    any_use_in_stmts(rule.body.pre.as_slice(), question)
        || any_use(&rule.body.test, &Folds::Outside, question)
        || any_use_in_stmts(post_without_cost(rule, cost), question)
}

// An assignment of the cost.
#[derive(Drop)]
struct AssignsCost<'a> {
    cost: &'a [u8],
}

impl UseQuestion for AssignsCost<'_> {
    ghost asked = { λ q. assigns_cost q.cost.now };

    fn asks(&self, _folds: &Folds, used: &Use) -> bool {
        match used {
            Use::Assigning { property, .. } => property.as_slice() == self.cost,
            _ => false,
        }
    }
}

/// Whether the cost is assigned elsewhere than where an I-rule gives it.
pub fn cost_assigned(cost: &[u8], d: &Declaration) -> bool
    ensures { result ≡ spec.cost_assigned_in cost.now (seen_declaration d.now) }
{
    let question = AssignsCost { cost };
    match d {
        Declaration::IRule { this, .. } => any_use_without_cost(this, cost, &question),
        _ => uses(d, &question),
    }
}

/// Whether the declaration is an I-rule that does not end with giving its cost.
pub fn cost_missing(cost: &[u8], d: &Declaration) -> bool
    ensures { result ≡ spec.cost_missing_in cost.now (seen_declaration d.now) }
{
    match d {
        Declaration::IRule { this, .. } => cost_of(this, cost).is_none(),
        _ => false,
    }
}

// A read of the cost.
#[derive(Drop)]
struct IsCostRead<'a> {
    cost: &'a [u8],
}

impl UseQuestion for IsCostRead<'_> {
    ghost asked = { λ q. is_cost_read q.cost.now };

    fn asks(&self, _folds: &Folds, used: &Use) -> bool {
        match used {
            Use::Reading { property, .. } => property.as_slice() == self.cost,
            _ => false,
        }
    }
}

// Whether the expression reads the cost of another descriptor than those of these inputs.
fn reads_another(alloc: Global, cost: &[u8], inputs: &[ImplIn], e: &Expr) -> Result<bool, Memory>
    ensures { IfOk result (λ b. b ≡ spec.reads_another cost.now inputs.now (seen_expr e.now)) }
{
    let names = names_of(alloc, inputs)?;
    Ok(!reads_cost_of(e, cost, names.as_slice()))
}

fn cost_read_in_irule(alloc: Global, cost: &[u8], rule: &IRule) -> Result<bool, Memory>
    ensures { IfOk result (λ b. b
        ≡ (any_use_of (is_cost_read cost.now) (spec.without_cost cost.now (seen_irule rule.now))
        || holds_of (spec.reads_another cost.now rule.now.right.inputs)
        (given.cost_of cost.now (seen_irule rule.now)))) }
{
    if any_use_without_cost(rule, cost, &IsCostRead { cost }) {
        return Ok(true);
    }
    match cost_of(rule, cost) {
        Some(e) => reads_another(alloc, cost, rule.right.inputs.as_slice(), e),
        None => Ok(false),
    }
}

/// Whether the cost is read elsewhere than of an input where an I-rule gives its cost.
pub fn cost_read(alloc: Global, cost: &[u8], d: &Declaration) -> Result<bool, Memory>
    ensures { IfOk result (λ b. b ≡ spec.cost_read_in cost.now (seen_declaration d.now)) }
{
    match d {
        Declaration::IRule { this, .. } => cost_read_in_irule(alloc, cost, this),
        _ => Ok(uses(d, &IsCostRead { cost })),
    }
}

/// Whether the declaration is an I-rule whose cost has none of the forms of a cost.
pub fn cost_form(cost: &[u8], d: &Declaration) -> bool
    ensures { result ≡ spec.cost_form_in cost.now (seen_declaration d.now) }
{
    match d {
        Declaration::IRule { this, .. } => match cost_of(this, cost) {
            Some(e) => !is_cost_form(e, cost),
            None => false,
        },
        _ => false,
    }
}

fn reads_cost_alone(cost: &[u8], desc: &Symbol, e: &Expr) -> bool
    ensures { result ≡ spec.reads_cost_alone cost.now desc.now (seen_expr e.now) }
{
    match e {
        Expr::Read {
            desc: from,
            property,
        } => from == desc && property.as_slice() == cost,
        _ => false,
    }
}

// Whether the statement sets the cost of the first descriptor to that of the second.
fn moves_cost(cost: &[u8], to: &Symbol, from: &Symbol, s: &Stmt) -> bool
    ensures { result ≡ spec.moves_cost cost.now to.now from.now (seen_stmt s.now) }
{
    match s {
        Stmt::Set {
            desc,
            property,
            value,
        } => desc == to && property.as_slice() == cost && reads_cost_alone(cost, from, value),
        Stmt::Copy { .. } => false,
    }
}

// Whether the one statement sets the descriptor's cost to that of the one input.
fn passes_cost(cost: &[u8], desc: &Symbol, inputs: &[ImplIn], post: &[Stmt]) -> bool
    ensures { result
        ≡ spec.passes_cost cost.now desc.now inputs.now (map seen_stmt post.now) }
{
    match (inputs, post) {
        ([input], [s]) => moves_cost(cost, desc, &input.desc, s),
        _ => false,
    }
}

/// Whether the declaration is a rule to `Null` that does not just pass on the input's cost.
pub fn null_form(cost: &[u8], d: &Declaration) -> bool
    ensures { result ≡ spec.null_form_in cost.now (seen_declaration d.now) }
{
    match d {
        Declaration::IRule { this, .. } => {
            let side = &this.right;
            let post = this.body.post.as_slice();
            is_null(&side.alg) && !passes_cost(cost, &side.desc, side.inputs.as_slice(), post)
        }
        _ => false,
    }
}
