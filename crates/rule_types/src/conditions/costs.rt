// Conditions on what is declared a cost.
ghost use Rattle.std.specs.Prelude.{◌≡◌};
ghost use Rattle.std.specs.List.{list_any};
ghost use Rattle.rule_ast.specs.CostForms as costs;
ghost use Rattle.rule_types.specs.Conditions as spec;
ghost use Rattle.rule_types.specs.SeenDeclarations.{seen_declaration};

use crate::declaration::Declaration;
use pr_value::Property;
use rule_ast::{Param, is_cost};

/// Whether some property is the cost.
pub fn has_cost(properties: &[Property]) -> bool
    ensures { result ≡ spec.has_cost properties.now }
{
    properties.iter().any(|property| is_cost(property.kind))
}

/// Whether the declaration is a second property that is a cost.
pub fn two_costs(d: &Declaration) -> bool
    ensures { result ≡ spec.two_costs (seen_declaration d.now) }
{
    match d {
        Declaration::Property { before, this } => is_cost(this.kind) && has_cost(before),
        _ => false,
    }
}

fn takes_cost(params: &[Param]) -> bool
    ensures { result ≡ list_any (λ p. costs.is_cost p.kind) params.now }
{
    params.iter().any(|param| is_cost(param.kind))
}

/// Whether the declaration is a helper that takes or gives a cost.
pub fn helper_cost(d: &Declaration) -> bool
    ensures { result ≡ spec.helper_cost (seen_declaration d.now) }
{
    match d {
        Declaration::Helper { this, .. } => {
            is_cost(this.result) || takes_cost(this.params.as_slice())
        }
        _ => false,
    }
}
