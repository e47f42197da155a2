// What plans cost.
ghost use Rattle.std.specs.Prelude.{◌≡◌, map, position, IfOk};
ghost use Rattle.std.specs.Str.{bytes_eq};
ghost use Rattle.descriptor_types.specs.Descriptors.{place_of, with_value};
ghost use Rattle.pr_value.specs.declared.value.Value.TheVariants as value;
ghost use Rattle.plan_form.specs.Plans as spec;
ghost use Rattle.plan_form.specs.Plans.{desc_cost, seen_plan};
ghost use Rattle.rule_ast.specs.CostForms as costs;
ghost use Rattle.rule_ast.specs.SeenRules.{seen_rules};

use crate::plan::Plan;
use descriptor_types::Desc;
use pr_value::{Memory, Property, Value, number_in};
use rule_ast::{Rules, cost_name};
use rule_types::Accepted;
use std::alloc::Global;

/// The place of the first property of that name.
fn first_named(properties: &[Property], name: &[u8]) -> Option<usize>
    ensures { result ≡ position (λ p. bytes_eq p.name name.now) properties.now }
{
    properties
        .iter()
        .position(|property| property.name.as_slice() == name)
}

/// The place of the cost property.
fn cost_place(rules: &Rules) -> Option<usize>
    ensures { result ≡ place_of rules.now.properties (costs.cost_name rules.now.properties) }
{
    let properties = rules.properties.as_slice();
    let name = cost_name(properties);
    first_named(properties, name)
}

/// The cost in a descriptor, which is 0 where there is no number at its place.
pub(crate) fn desc_cost(rules: &Rules, desc: &Desc) -> u64
    ensures { result ≡ desc_cost (seen_rules rules.now) desc.now }
{
    match cost_place(rules) {
        Some(place) => {
            if place < desc.count() {
                number_in(desc.get(place))
            } else {
                0
            }
        }
        None => 0,
    }
}

/// The descriptor with this cost.
pub(crate) fn set_cost(rules: &Rules, cost: u64, desc: &mut Desc)
    ensures { desc.new ≡ with_value rules.now.properties (costs.cost_name rules.now.properties)
        (value.Num cost) desc.old }
{
    match cost_place(rules) {
        Some(place) => {
            if place < desc.count() {
                desc.set(place, Value::Num(cost));
            }
        }
        None => {}
    }
}

/// What a plan costs: a file nothing, and an algorithm what its descriptor says, which is 0 where
/// it has no number at the place of the cost. It takes no memory.
pub fn cost(a: &Accepted, p: &Plan) -> u64
    ensures { result ≡ spec.cost (seen_rules a.now.rules) (seen_plan p.now) }
{
    match p {
        Plan::File { .. } => 0,
        Plan::Alg { desc, .. } => desc_cost(&a.rules, desc),
    }
}

/// What each plan costs.
pub(crate) fn costs_of(alloc: Global, a: &Accepted, plans: &[Plan]) -> Result<Vec<u64>, Memory>
    ensures { IfOk result (λ costs. costs.items
        ≡ map (λ p. spec.cost (seen_rules a.now.rules) (seen_plan p)) plans.now) }
{
    Ok(plans.iter().map(|plan| cost(a, plan)).collect(alloc)?)
}
