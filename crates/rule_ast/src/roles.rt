// What operators and properties are by the rules that name them.
ghost use Rattle.std.specs.Prelude.{◌≡◌, map};
ghost use Rattle.std.specs.List.{list_any};
ghost use Rattle.pr_value.specs.SymbolSets.{contains};
ghost use Rattle.rule_ast.specs.Descs.{names_of};
ghost use Rattle.rule_ast.specs.Roles as spec;
ghost use Rattle.rule_ast.specs.Roles.{assigns, any_read_in, any_read_of_body, is_null, leads_to_null};
ghost use Rattle.rule_ast.specs.Seen.{seen_body, seen_irule, seen_stmt};

use crate::expr::Stmt;
use crate::parts::{Body, IRule};
use crate::questions::{ReadQuestion, any_read};
use crate::sides::{AlgName, ImplIn};
use pr_value::Symbol;

/// What a property is for, by the rules that name it.
#[derive(Clone, Copy, PartialEq, Eq)]
pub enum PropertyClass {
    /// It is the cost.
    Cost,
    /// A rule to `Null` assigns it to its input's descriptor.
    Physical,
    /// A rule or an operator reads it of a stream, or a rule of an algorithm's input.
    Shared,
    /// All others.
    Argument,
}

fn is_null(alg: &AlgName) -> bool
    ensures { result ≡ is_null alg.now }
{
    matches!(alg, AlgName::Null)
}

// Whether the rule leads from the operator to `Null`.
#[tactic(auto, using(crate::proofs::RoleLaws::root_laws))]
fn leads_to_null(rule: &IRule, op: &Symbol) -> bool
    ensures { result ≡ leads_to_null op.now (seen_irule rule.now) }
{
    is_null(&rule.right.alg) && rule.left.op == *op
}

/// Whether some rule leads from the operator to `Null`.
pub fn is_enforcer(rules: &[IRule], op: &Symbol) -> bool
    ensures { result ≡ spec.is_enforcer (map seen_irule rules.now) op.now }
{
    for rule in rules {
        if leads_to_null(rule, op) {
            return true;
        }
    }
    false
}

fn is_input(desc: &Symbol, inputs: &[ImplIn]) -> bool
    ensures { result ≡ contains (names_of inputs.now) desc.now }
{
    for input in inputs {
        if *desc == input.desc {
            return true;
        }
    }
    false
}

// Whether the statement gives the property of one of these inputs a value.
fn assigns_input(s: &Stmt, inputs: &[ImplIn], property: &Symbol) -> bool
    ensures { result ≡ assigns (names_of inputs.now) property.now (seen_stmt s.now) }
{
    match s {
        Stmt::Set {
            desc,
            property: given,
            ..
        } => given == property && is_input(desc, inputs),
        Stmt::Copy { .. } => false,
    }
}

fn some_assigns_input(ss: &[Stmt], inputs: &[ImplIn], property: &Symbol) -> bool
    ensures { result ≡ list_any (assigns (names_of inputs.now) property.now) (map seen_stmt ss.now) }
{
    for s in ss {
        if assigns_input(s, inputs, property) {
            return true;
        }
    }
    false
}

fn passes_on(rule: &IRule, property: &Symbol) -> bool
    ensures { result ≡ spec.passes_on property.now (seen_irule rule.now) }
{
    let inputs = rule.right.inputs.as_slice();
    is_null(&rule.right.alg)
        && (some_assigns_input(rule.body.pre.as_slice(), inputs, property)
            || some_assigns_input(rule.body.post.as_slice(), inputs, property))
}

/// Whether some rule to `Null` assigns the property to its input's descriptor.
pub fn is_physical(rules: &[IRule], property: &Symbol) -> bool
    ensures { result ≡ spec.is_physical (map seen_irule rules.now) property.now }
{
    for rule in rules {
        if passes_on(rule, property) {
            return true;
        }
    }
    false
}

fn any_read_in<Q: ReadQuestion>(s: &Stmt, question: &Q) -> bool
    ensures { result ≡ any_read_in (Q.asked question.now) (seen_stmt s.now) }
{
    match s {
        Stmt::Set { value, .. } => any_read(value, question),
        Stmt::Copy { .. } => false,
    }
}

fn some_read_in<Q: ReadQuestion>(ss: &[Stmt], question: &Q) -> bool
    ensures { result ≡ list_any (any_read_in (Q.asked question.now)) (map seen_stmt ss.now) }
{
    for s in ss {
        if any_read_in(s, question) {
            return true;
        }
    }
    false
}

/// Whether the question holds of some read of the statements and the test.
pub fn any_read_of_body<Q: ReadQuestion>(body: &Body, question: &Q) -> bool
    ensures { result ≡ any_read_of_body (Q.asked question.now) (seen_body body.now) }
{
    some_read_in(body.pre.as_slice(), question)
        || any_read(&body.test, question)
        || some_read_in(body.post.as_slice(), question)
}
