// Which properties are read of views, streams and inputs.
ghost use Rattle.std.specs.Prelude.{◌≡◌, ◌++◌, map, IfOk, OnOk};
ghost use Rattle.std.specs.List.{list_any};
ghost use Rattle.rule_ast.specs.Descs as descs;
ghost use Rattle.rule_ast.specs.Roles as spec;
ghost use Rattle.rule_ast.specs.Roles.{any_read_in, of_these};
ghost use Rattle.rule_ast.specs.Seen.{seen_irule, seen_operator, seen_stmt, seen_trule};
ghost use Rattle.rule_ast.specs.SeenRules.{seen_rules};

use pr_value::{Items, Memory, Symbol, contains};
use rule_ast::{
    IRule, ImplIn, Operator, ReadQuestion, Rules, Stmt, TRule, any_read, any_read_of_body,
    stream_descs,
};
use std::alloc::Global;

// A read of the property of one of these descriptors.
#[derive(Drop)]
struct OfThese<'a> {
    descs: &'a [Symbol],
    property: &'a Symbol,
}

impl ReadQuestion for OfThese<'_> {
    ghost asked = { λ q. of_these q.descs.now q.property.now };

    fn asks(&self, desc: &Symbol, property: &Symbol) -> bool {
        property == self.property && contains(self.descs, desc)
    }
}

fn any_read_in(s: &Stmt, question: &OfThese) -> bool
    ensures { result
        ≡ any_read_in (of_these question.now.descs.now question.now.property.now)
        (seen_stmt s.now) }
{
    match s {
        Stmt::Set { value, .. } => any_read(value, question),
        Stmt::Copy { .. } => false,
    }
}

fn some_read_in(ss: &[Stmt], question: &OfThese) -> bool
    ensures { result
        ≡ list_any (any_read_in (of_these question.now.descs.now question.now.property.now))
        (map seen_stmt ss.now) }
{
    for s in ss {
        if any_read_in(s, question) {
            return true;
        }
    }
    false
}

fn operator_reads(operator: &Operator, property: &Symbol) -> bool
    ensures { result ≡ spec.operator_reads property.now (seen_operator operator.now) }
{
    let question = OfThese {
        descs: operator.views.as_slice(),
        property,
    };
    some_read_in(operator.init.as_slice(), &question)
}

fn trule_reads(alloc: Global, rule: &TRule, property: &Symbol) -> Result<bool, Memory>
    ensures { IfOk result (λ b. b ≡ spec.trule_reads property.now (seen_trule rule.now)) }
{
    let streams = stream_descs(alloc, &rule.left)?;
    let question = OfThese {
        descs: streams.as_slice(),
        property,
    };
    Ok(any_read_of_body(&rule.body, &question))
}

fn push_inputs(alloc: Global, inputs: &[ImplIn], out: &mut Items<Symbol>) -> Result<(), Memory>
    ensures { OnOk result (out.new ≡ out.old ++ descs.names_of inputs.now) }
{
    for input in inputs {
        out.push(input.desc.copy(alloc)?)?;
    }
    Ok(())
}

// The streams of the rule, and the inputs of its algorithm.
fn seen_by(alloc: Global, rule: &IRule) -> Result<Items<Symbol>, Memory>
    ensures { IfOk result (λ names. names ≡ descs.stream_descs (seen_irule rule.now).left
        ++ descs.names_of rule.now.right.inputs) }
{
    let mut names = stream_descs(alloc, &rule.left)?;
    push_inputs(alloc, rule.right.inputs.as_slice(), &mut names)?;
    Ok(names)
}

fn irule_reads(alloc: Global, rule: &IRule, property: &Symbol) -> Result<bool, Memory>
    ensures { IfOk result (λ b. b ≡ spec.irule_reads property.now (seen_irule rule.now)) }
{
    let names = seen_by(alloc, rule)?;
    let question = OfThese {
        descs: names.as_slice(),
        property,
    };
    Ok(any_read_of_body(&rule.body, &question))
}

fn some_operator_reads(operators: &[Operator], property: &Symbol) -> bool
    ensures { result
        ≡ list_any (spec.operator_reads property.now) (map seen_operator operators.now) }
{
    for operator in operators {
        if operator_reads(operator, property) {
            return true;
        }
    }
    false
}

fn some_trule_reads(alloc: Global, rules: &[TRule], property: &Symbol) -> Result<bool, Memory>
    ensures { IfOk result
        (λ b. b ≡ list_any (spec.trule_reads property.now) (map seen_trule rules.now)) }
{
    for rule in rules {
        if trule_reads(alloc, rule, property)? {
            return Ok(true);
        }
    }
    Ok(false)
}

fn some_irule_reads(alloc: Global, rules: &[IRule], property: &Symbol) -> Result<bool, Memory>
    ensures { IfOk result
        (λ b. b ≡ list_any (spec.irule_reads property.now) (map seen_irule rules.now)) }
{
    for rule in rules {
        if irule_reads(alloc, rule, property)? {
            return Ok(true);
        }
    }
    Ok(false)
}

/// Whether the property is read of a view, a stream, or an algorithm's input.
pub fn is_read_of_streams(alloc: Global, rules: &Rules, property: &Symbol) -> Result<bool, Memory>
    ensures { IfOk result
        (λ b. b ≡ spec.is_read_of_streams (seen_rules rules.now) property.now) }
{
    if some_operator_reads(rules.operators.as_slice(), property) {
        return Ok(true);
    }
    if some_trule_reads(alloc, rules.trules.as_slice(), property)? {
        return Ok(true);
    }
    some_irule_reads(alloc, rules.irules.as_slice(), property)
}
