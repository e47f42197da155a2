// Plans that rows list node by node, the inputs of a node before it.
use descriptor_types::{Desc, Layout};
use plan_form::Plan;
use pr_value::{Items, Symbol, Value};
use row_texts::members::{array, number, said_string, string};
use row_texts::trouble::Trouble;
use rule_ast::IRule;
use rule_types::Accepted;
use serde_json::Value as Json;
use std::alloc::Global;
use value_json::{PartError, value_of};

/// The plan that ends in the last of the nodes.
pub fn plan_of(alloc: Global, accepted: &Accepted, nodes: &Json) -> Result<Plan, Trouble> {
    let mut plans = Vec::new(alloc);
    for node in array(nodes) {
        let plan = node_of(alloc, accepted, node, &mut plans)?;
        plans.push(plan)?;
    }
    match plans.pop() {
        Some(plan) => Ok(plan),
        None => Err(Trouble::Misshapen("plan")),
    }
}

/// A file, or the algorithm of a rule over the last of the plans before it.
fn node_of(
    alloc: Global,
    accepted: &Accepted,
    node: &Json,
    plans: &mut Vec<Plan>,
) -> Result<Plan, Trouble> {
    if let Some(json) = node.get("file") {
        return file_of(alloc, json);
    }
    let name = said_string(node, node, "rule")?;
    let rule = rule_at(accepted.rules.irules.as_slice(), name);
    let desc = desc_of(alloc, accepted.layout(), node)?;
    let inputs = inputs_of(alloc, node, plans)?;
    Ok(Plan::Alg { rule, desc, inputs })
}

fn file_of(alloc: Global, json: &Json) -> Result<Plan, Trouble> {
    let name = Symbol::new(alloc, string(json, "file")?.as_bytes())?;
    Ok(Plan::File { name })
}

/// As many of the last plans as the node says, or else the last one.
fn inputs_of(alloc: Global, node: &Json, plans: &mut Vec<Plan>) -> Result<Items<Plan>, Trouble> {
    let count = match node.get("inputs") {
        Some(json) => number(json, "inputs")?,
        None => 1,
    };
    let inputs = last(alloc, plans, count)?;
    Ok(Items::from_vec(inputs))
}

/// The place of the rule of that name, past the last one where there is none.
fn rule_at(rules: &[IRule], name: &str) -> usize {
    for (place, rule) in rules.iter().enumerate() {
        if rule.name.as_slice() == name.as_bytes() {
            return place;
        }
    }
    rules.len()
}

/// The values that the node sets, and the defaults of the other properties.
fn desc_of(alloc: Global, layout: &Layout, node: &Json) -> Result<Desc, Trouble> {
    let mut desc = Desc::plain(alloc, layout)?;
    if let Some(json) = node.get("set") {
        set_all(alloc, layout, json, &mut desc)?;
    }
    Ok(desc)
}

fn set_all(alloc: Global, layout: &Layout, json: &Json, desc: &mut Desc) -> Result<(), Trouble> {
    let Some(members) = json.as_object() else {
        return Err(Trouble::Misshapen("set"));
    };
    for (name, member) in members.iter() {
        let name = Symbol::new(alloc, name.as_bytes())?;
        let value = said_value(alloc, member)?;
        if let Some(place) = layout.find(&name) {
            if place < desc.count() {
                desc.set(place, value);
            }
        }
    }
    Ok(())
}

fn said_value(alloc: Global, json: &Json) -> Result<Value, Trouble> {
    match value_of(alloc, json) {
        Ok(value) => Ok(value),
        Err(PartError::Memory) => Err(Trouble::Memory),
        Err(PartError::Misshapen) => Err(Trouble::Misshapen("a value")),
    }
}

/// So many plans from the end, in their order.
fn last(alloc: Global, plans: &mut Vec<Plan>, count: u64) -> Result<Vec<Plan>, Trouble> {
    let mut taken = Vec::new(alloc);
    for _ in 0..count {
        match plans.pop() {
            Some(plan) => taken.push(plan)?,
            None => return Err(Trouble::Misshapen("inputs")),
        }
    }
    taken.reverse();
    Ok(taken)
}
