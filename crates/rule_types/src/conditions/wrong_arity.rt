// The condition that something has another number of inputs or arguments than it takes.
ghost use Rattle.std.specs.Prelude.{◌≡◌, ◌&&◌, ◌==◌, map, length};
ghost use Rattle.std.specs.List.{list_any};
ghost use Rattle.std.specs.Str.{bytes_eq};
ghost use Rattle.rule_ast.specs.Seen.{seen_helper, seen_irule, seen_operator, seen_trule};
ghost use Rattle.rule_ast.specs.SeenRules.{seen_rules};
ghost use Rattle.rule_ast.specs.Typing.{builtins, helper_signature};
ghost use Rattle.rule_types.specs.Conditions as spec;
ghost use Rattle.rule_types.specs.Conditions.{has_signature, wrong_call, wrong_left, wrong_right};
ghost use Rattle.rule_types.specs.SeenDeclarations.{seen_declaration};

use crate::builtin_counts::builtin_takes;
use crate::declaration::Declaration;
use crate::folds::Folds;
use crate::scopes::helpers_of;
use crate::sides::{LeftQuestion, RightQuestion, any_left, any_right};
use crate::uses::{Use, UseQuestion, uses};
use pr_value::Symbol;
use rule_ast::{AlgName, Algorithm, Helper, IRule, Operator, Rules, TRule, is_builtin};

fn is_arity(n: u64) -> bool
    ensures { result ≡ spec.is_arity n }
{
    0 < n && n <= 4
}

fn some_takes(operators: &[Operator], op: &Symbol, inputs: usize) -> bool
    ensures { result
        ≡ list_any (λ p. bytes_eq p.name op.now && length p.views == inputs) operators.now }
{
    operators
        .iter()
        .any(|known| known.name == *op && known.views.len() == inputs)
}

#[tactic(auto, using(crate::proofs::ArityLaws::arity_laws))]
fn takes(operators: &[Operator], op: &Symbol, inputs: usize) -> bool
    ensures { result ≡ spec.takes (map seen_operator operators.now) op.now inputs }
{
    some_takes(operators, op, inputs)
}

fn named_takes(algorithms: &[Algorithm], name: &Symbol, inputs: usize) -> bool
    ensures { result
        ≡ list_any (λ b. bytes_eq b.name name.now && b.arity == inputs) algorithms.now }
{
    algorithms.iter().any(|known| known.name == *name && known.arity == inputs as u64)
}

fn algorithm_takes(algorithms: &[Algorithm], name: &AlgName, inputs: usize) -> bool
    ensures { result ≡ spec.algorithm_takes algorithms.now name.now inputs }
{
    match name {
        AlgName::Named(name) => named_takes(algorithms, name, inputs),
        AlgName::Null => inputs == 1,
    }
}

fn some_helper_takes(helpers: &[Helper], name: &Symbol, arguments: usize) -> bool
    ensures { result
        ≡ list_any (λ h. bytes_eq h.name name.now && length h.params == arguments) helpers.now }
{
    helpers.iter().any(|known| known.name == *name && known.params.len() == arguments)
}

#[tactic(auto, using(crate::proofs::ArityLaws::arity_laws))]
fn helper_takes(helpers: &[Helper], name: &Symbol, arguments: usize) -> bool
    ensures { result
        ≡ has_signature (map helper_signature (map seen_helper helpers.now)) name.now arguments }
{
    some_helper_takes(helpers, name, arguments)
}

// A call that gives a function another number of arguments than it takes.
#[derive(Drop)]
struct WrongCall<'a> {
    helpers: &'a [Helper],
}

impl UseQuestion for WrongCall<'_> {
    ghost asked = { λ q. wrong_call (map seen_helper q.helpers.now) };

    fn asks(&self, _folds: &Folds, used: &Use) -> bool {
        match used {
            Use::Calling {
                function,
                arguments,
            } => {
                if is_builtin(function.as_slice()) {
                    !builtin_takes(function, *arguments)
                } else {
                    !helper_takes(self.helpers, function, *arguments)
                }
            }
            _ => false,
        }
    }
}

// An operator of a side that has another number of inputs than it takes.
#[derive(Drop)]
struct WrongSide<'a> {
    rules: &'a Rules,
}

impl LeftQuestion for WrongSide<'_> {
    ghost asked = { λ q. wrong_left (seen_rules q.rules.now) };

    fn asks_operator(&self, op: &Symbol, _desc: &Symbol, inputs: usize) -> bool {
        !takes(self.rules.operators.as_slice(), op, inputs)
    }

    fn asks_stream(&self, _number: u64, _desc: &Symbol) -> bool {
        false
    }
}

impl RightQuestion for WrongSide<'_> {
    ghost asked = { λ q. wrong_right (seen_rules q.rules.now) };

    fn asks_operator(&self, op: &Symbol, _desc: &Symbol, inputs: usize) -> bool {
        !takes(self.rules.operators.as_slice(), op, inputs)
    }

    fn asks_stream(&self, _number: u64) -> bool {
        false
    }
}

fn wrong_in_trule(rules: &Rules, rule: &TRule) -> bool
    ensures { result ≡ spec.wrong_in_trule (seen_rules rules.now) (seen_trule rule.now) }
{
    let question = WrongSide { rules };
    any_left(&rule.left, &question) || any_right(&rule.right, &question)
}

fn wrong_in_irule(rules: &Rules, rule: &IRule) -> bool
    ensures { result ≡ spec.wrong_in_irule (seen_rules rules.now) (seen_irule rule.now) }
{
    let question = WrongSide { rules };
    let inputs = rule.right.inputs.len();
    any_left(&rule.left, &question)
        || !algorithm_takes(rules.algorithms.as_slice(), &rule.right.alg, inputs)
}

fn wrong_in_parts(rules: &Rules, d: &Declaration) -> bool
    ensures { result ≡ spec.wrong_in_parts (seen_rules rules.now) (seen_declaration d.now) }
{
    match d {
        Declaration::Property { .. } | Declaration::Helper { .. } => false,
        Declaration::Operator { this, .. } => !is_arity(this.views.len() as u64),
        Declaration::Algorithm { this, .. } => !is_arity(this.arity),
        Declaration::TRule { this, .. } => wrong_in_trule(rules, this),
        Declaration::IRule { this, .. } => wrong_in_irule(rules, this),
    }
}

/// Whether something in the declaration has another number of inputs or arguments than it takes.
pub fn wrong_arity(rules: &Rules, d: &Declaration) -> bool
    ensures { result ≡ spec.wrong_arity (seen_rules rules.now) (seen_declaration d.now) }
{
    let question = WrongCall {
        helpers: helpers_of(rules, d),
    };
    wrong_in_parts(rules, d) || uses(d, &question)
}
