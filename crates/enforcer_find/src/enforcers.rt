ghost use Rattle.std.specs.Prelude.{◌≡◌, ◌<◌, [], ◌∷◌, ◌++◌, Some, length, map, option_map, slice_get, if◌then◌else◌, IfOk, OnOk};
ghost use Rattle.rule_ast.specs.Roles.{is_enforcer, is_null, leads_to_null};
ghost use Rattle.rule_ast.specs.Seen.{seen_irule, seen_operator};
ghost use Rattle.rule_ast.specs.SeenRules.{seen_rules};
ghost use Rattle.enforcer_find.specs.Enforcers as spec;
ghost use Rattle.enforcer_find.specs.Enforcers.{has_null, operator_rules, places};

use pr_value::{Items, Memory, Symbol};
use rule_ast::{AlgName, IRule, Operator, Rules};
use std::alloc::Global;
use std::marker::Model;

/// The numbers of the I-rules of an operator, ascending.
#[derive(Drop)]
pub struct OperatorRules {
    /// Those that lead to `Null`.
    pub null_rules: Items<usize>,
    /// Those that lead to an algorithm.
    pub algorithms: Items<usize>,
}

/// The rules of each operator of a rule set, seen as the list of them in the order of declaration.
#[derive(Drop)]
pub struct Enforcers {
    operators: Items<OperatorRules>,
}

impl Model for Enforcers {
    ghost use Rattle.std.specs.Prelude.{List};
    ghost use Rattle.enforcer_find.specs.declared.enforcers.OperatorRules.{OperatorRules};

    ghost Value = { List OperatorRules };

    ghost view = { λ e. e.operators };
}

fn is_null(alg: &AlgName) -> bool
    ensures { result ≡ is_null alg.now }
{
    matches!(alg, AlgName::Null)
}

// Whether the rule leads from the operator to `Null`.
#[tactic(auto, using(rule_ast::proofs::RoleLaws::root_laws))]
fn leads_to_null(rule: &IRule, op: &Symbol) -> bool
    ensures { result ≡ leads_to_null op.now (seen_irule rule.now) }
{
    is_null(&rule.right.alg) && rule.left.op == *op
}

// Whether the rule leads from the operator to an algorithm.
#[tactic(auto, using(rule_ast::proofs::RoleLaws::root_laws))]
fn leads_to_algorithm(rule: &IRule, op: &Symbol) -> bool
    ensures { result ≡ spec.leads_to_algorithm op.now (seen_irule rule.now) }
{
    !is_null(&rule.right.alg) && rule.left.op == *op
}

fn push_where(on: bool, place: usize, out: &mut Items<usize>) -> Result<(), Memory>
    ensures { OnOk result (out.new ≡ out.old ++ (if on then place ∷ [] else [])) }
{
    if on {
        out.push(place)?;
    }
    Ok(())
}

fn null_rules(alloc: Global, rules: &[IRule], op: &Symbol) -> Result<Items<usize>, Memory>
    ensures { IfOk result (λ ns. ns ≡ places (leads_to_null op.now) (map seen_irule rules.now)) }
{
    let mut places = Items::new(alloc);
    for (place, rule) in rules.iter().enumerate() {
        let leads = leads_to_null(rule, op);
        push_where(leads, place, &mut places)?;
    }
    Ok(places)
}

fn algorithms(alloc: Global, rules: &[IRule], op: &Symbol) -> Result<Items<usize>, Memory>
    ensures { IfOk result
        (λ ns. ns ≡ places (spec.leads_to_algorithm op.now) (map seen_irule rules.now)) }
{
    let mut places = Items::new(alloc);
    for (place, rule) in rules.iter().enumerate() {
        let leads = leads_to_algorithm(rule, op);
        push_where(leads, place, &mut places)?;
    }
    Ok(places)
}

fn rules_of(alloc: Global, rules: &[IRule], operator: &Operator) -> Result<OperatorRules, Memory>
    ensures { IfOk result
        (λ found. found ≡ spec.rules_of (map seen_irule rules.now) (seen_operator operator.now)) }
{
    let null_rules = null_rules(alloc, rules, &operator.name)?;
    let algorithms = algorithms(alloc, rules, &operator.name)?;
    Ok(OperatorRules {
        null_rules,
        algorithms,
    })
}

fn operator_rules(
    alloc: Global,
    rules: &[IRule],
    operators: &[Operator],
) -> Result<Items<OperatorRules>, Memory>
    ensures { IfOk result (λ all. all
        ≡ map (spec.rules_of (map seen_irule rules.now)) (map seen_operator operators.now)) }
{
    let mut all = Items::new(alloc);
    for operator in operators {
        let found = rules_of(alloc, rules, operator)?;
        all.push(found)?;
    }
    Ok(all)
}

impl Enforcers {
    /// The rules of the rule set's operators. An enforcer is an operator that has a rule to `Null`.
    pub fn of(alloc: Global, rules: &Rules) -> Result<Enforcers, Memory>
        ensures rules { IfOk result (λ e. e ≡ operator_rules (seen_rules rules.now)) }
        ensures enforcers { IfOk result (λ e. map has_null e
            ≡ map (λ o. is_enforcer (map seen_irule rules.now.irules) o.name) rules.now.operators) }
    {
        let irules = rules.irules.as_slice();
        let operators = operator_rules(alloc, irules, rules.operators.as_slice())?;
        Ok(Enforcers { operators })
    }

    /// Whether the operator at a place, from 0, has a rule to `Null`.
    pub fn is_enforcer(&self, op: usize) -> bool
        requires { op < length self.now }
        ensures { option_map has_null (slice_get self.now op) ≡ Some result }
    {
        self.operators.as_slice()[op].null_rules.len() > 0
    }

    /// The numbers of the operator's rules to `Null`, ascending.
    pub fn null_rules(&self, op: usize) -> &[usize]
        requires { op < length self.now }
        ensures { option_map (λ o. o.null_rules) (slice_get self.now op) ≡ Some result.now }
    {
        self.operators.as_slice()[op].null_rules.as_slice()
    }

    /// The numbers of the operator's other rules, ascending.
    pub fn algorithms(&self, op: usize) -> &[usize]
        requires { op < length self.now }
        ensures { option_map (λ o. o.algorithms) (slice_get self.now op) ≡ Some result.now }
    {
        self.operators.as_slice()[op].algorithms.as_slice()
    }
}
