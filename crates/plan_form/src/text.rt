// The text of a plan.
ghost use Rattle.std.specs.Prelude.{◌≡◌, ◌++◌, codes, map, IfOk, OnOk, OnErr};
ghost use Rattle.std.specs.Fmt.{decimal};
ghost use Rattle.std.specs.Option.{option_copied};
ghost use Rattle.pr_value.specs.Trees.{trees_of};
ghost use Rattle.plan_form.specs.PlanText as spec;
ghost use Rattle.plan_form.specs.Plans.{desc_cost, seen_plan};
ghost use Rattle.rule_ast.specs.SeenRules.{seen_rules};

use crate::costing::{cost, desc_cost};
use crate::plan::Plan;
use descriptor_types::Desc;
use pr_value::{Memory, Property, Symbol, Text, Value};
use rule_ast::{AlgName, Rules, is_cost};
use rule_types::Accepted;
use std::alloc::Global;
use std::string::ToString;

/// Appends the text of the plan: `cost N`, and then a line for each node, a node before its inputs,
/// which are indented by two more blanks. A file's line is `file NAME`; an algorithm's line is its
/// name, ` cost=N`, and ` P=V` for each other property, in the order of declaration, whose value is
/// not the default. `Null` has no line, and its input stands at its level. The text is unchanged
/// after an error.
pub fn plan_text(alloc: Global, a: &Accepted, p: &Plan, out: &mut Text) -> Result<(), Memory>
    ensures ok { OnOk result
        (out.new ≡ out.old ++ spec.plan_text (seen_rules a.now.rules) (seen_plan p.now)) }
    ensures err { OnErr result (out.new ≡ out.old) }
{
    let text = whole_text(alloc, a, p)?;
    out.push_bytes(text.as_slice())
}

fn whole_text(alloc: Global, a: &Accepted, p: &Plan) -> Result<Text, Memory>
    ensures { IfOk result
        (λ text. text ≡ spec.plan_text (seen_rules a.now.rules) (seen_plan p.now)) }
{
    let mut text = Text::new(alloc);
    text.push_bytes(b"cost ")?;
    push_number(alloc, cost(a, p), &mut text)?;
    text.push_bytes(b"\n")?;
    push_node(alloc, &a.rules, b"", p, &mut text)?;
    Ok(text)
}

fn push_number(alloc: Global, n: u64, out: &mut Text) -> Result<(), Memory>
    ensures { OnOk result (out.new ≡ out.old ++ decimal n) }
{
    let digits = n.to_string(alloc)?;
    out.push_bytes(digits.as_bytes())?;
    Ok(())
}

#[cycle(text)]
fn push_node(
    alloc: Global,
    rules: &Rules,
    indent: &[u8],
    plan: &Plan,
    out: &mut Text,
) -> Result<(), Memory>
    ensures { OnOk result
        (out.new ≡ out.old
        ++ spec.node_text (seen_rules rules.now) indent.now (seen_plan plan.now)) }
{
    match plan {
        Plan::File { name } => {
            push_file(indent, name, out)?;
            Ok(())
        }
        Plan::Alg { rule, desc, inputs } => {
            let name = algorithm_name(rules, *rule);
            push_line(alloc, rules, indent, name, desc, out)?;
            let inner = inner(alloc, indent, name)?;
            let below = inner.as_slice();
            let plans = inputs.as_slice();
            push_inputs(alloc, rules, below, plans, out)?;
            Ok(())
        }
    }
}

#[cycle(text)]
fn push_inputs(
    alloc: Global,
    rules: &Rules,
    indent: &[u8],
    plans: &[Plan],
    out: &mut Text,
) -> Result<(), Memory>
    ensures { OnOk result
        (out.new ≡ out.old
        ++ spec.inputs_text (seen_rules rules.now) indent.now
        (trees_of (map seen_plan plans.now))) }
{
    for plan in plans {
        push_node(alloc, rules, indent, plan, out)?;
    }
    Ok(())
}

fn push_file(indent: &[u8], name: &Symbol, out: &mut Text) -> Result<(), Memory>
    ensures { OnOk result (out.new ≡ out.old ++ spec.file_line indent.now name.now) }
{
    out.push_bytes(indent)?;
    out.push_bytes(b"file ")?;
    out.push_bytes(name.as_slice())?;
    out.push_bytes(b"\n")?;
    Ok(())
}

fn alg_name(alg: &AlgName) -> Option<&[u8]>
    ensures { option_copied result ≡ spec.name_of alg.now }
{
    match alg {
        AlgName::Null => None,
        AlgName::Named(name) => Some(name.as_slice()),
    }
}

/// The name of the rule's algorithm, or none for `Null`.
fn algorithm_name(rules: &Rules, rule: usize) -> Option<&[u8]>
    ensures { option_copied result ≡ spec.algorithm_name (seen_rules rules.now) rule }
{
    match rules.irules.as_slice().get(rule) {
        Some(rule) => alg_name(&rule.right.alg),
        None => Some(b"".as_slice()),
    }
}

/// The line of an algorithm, unless it is `Null`.
fn push_line(
    alloc: Global,
    rules: &Rules,
    indent: &[u8],
    name: Option<&[u8]>,
    desc: &Desc,
    out: &mut Text,
) -> Result<(), Memory>
    ensures { OnOk result
        (out.new ≡ out.old
        ++ spec.line (seen_rules rules.now) indent.now (option_copied name.entry) desc.now) }
{
    match name {
        Some(name) => {
            push_named(alloc, rules, indent, name, desc, out)?;
            Ok(())
        }
        None => Ok(()),
    }
}

fn push_named(
    alloc: Global,
    rules: &Rules,
    indent: &[u8],
    name: &[u8],
    desc: &Desc,
    out: &mut Text,
) -> Result<(), Memory>
    ensures { OnOk result
        (out.new ≡ out.old ++ spec.named_line (seen_rules rules.now) indent.now name.now desc.now) }
{
    out.push_bytes(indent)?;
    out.push_bytes(name)?;
    out.push_bytes(b" cost=")?;
    push_number(alloc, desc_cost(rules, desc), out)?;
    push_all_shown(alloc, rules.properties.as_slice(), desc, out)?;
    out.push_bytes(b"\n")?;
    Ok(())
}

fn push_all_shown(
    alloc: Global,
    properties: &[Property],
    desc: &Desc,
    out: &mut Text,
) -> Result<(), Memory>
    ensures { OnOk result (out.new ≡ out.old ++ spec.all_shown properties.now desc.now) }
{
    let places = properties.len().min(desc.count());
    for place in 0..places {
        push_shown(alloc, &properties[place], desc.get(place), out)?;
    }
    Ok(())
}

fn push_shown(
    alloc: Global,
    property: &Property,
    value: &Value,
    out: &mut Text,
) -> Result<(), Memory>
    ensures { OnOk result (out.new ≡ out.old ++ spec.shown property.now value.now) }
{
    if is_shown(property, value) {
        out.push_bytes(b" ")?;
        out.push_bytes(property.name.as_slice())?;
        out.push_bytes(b"=")?;
        value.print(alloc, out)?;
    }
    Ok(())
}

fn is_shown(property: &Property, value: &Value) -> bool
    ensures { result ≡ spec.is_shown property.now value.now }
{
    !is_cost(property.kind) && !value.is_default()
}

/// Two more blanks, but none more below `Null`.
fn inner(alloc: Global, indent: &[u8], name: Option<&[u8]>) -> Result<Text, Memory>
    ensures { IfOk result (λ text. text ≡ spec.inner indent.now (option_copied name.entry)) }
{
    let mut text = Text::new(alloc);
    text.push_bytes(indent)?;
    if name.is_some() {
        text.push_bytes(b"  ")?;
    }
    Ok(text)
}
