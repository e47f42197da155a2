// Whether a name is one of those that are declared in a list.
ghost use Rattle.std.specs.Prelude.{◌≡◌, map};
ghost use Rattle.pr_value.specs.SymbolSets.{contains};
ghost use Rattle.rule_ast.specs.Seen.{seen_operator, seen_helper, seen_trule, seen_irule};
ghost use Rattle.rule_types.specs.Conditions.{property_names, operator_names, algorithm_names, helper_names, trule_names, irule_names};

use pr_value::{Property, Symbol};
use rule_ast::{Algorithm, Helper, IRule, Operator, TRule};

pub fn is_property(properties: &[Property], name: &Symbol) -> bool
    ensures { result ≡ contains (property_names properties.now) name.now }
{
    for known in properties {
        if *name == known.name {
            return true;
        }
    }
    false
}

pub fn is_operator(operators: &[Operator], name: &Symbol) -> bool
    ensures { result ≡ contains (operator_names (map seen_operator operators.now)) name.now }
{
    for known in operators {
        if *name == known.name {
            return true;
        }
    }
    false
}

pub fn is_algorithm(algorithms: &[Algorithm], name: &Symbol) -> bool
    ensures { result ≡ contains (algorithm_names algorithms.now) name.now }
{
    for known in algorithms {
        if *name == known.name {
            return true;
        }
    }
    false
}

pub fn is_helper(helpers: &[Helper], name: &Symbol) -> bool
    ensures { result ≡ contains (helper_names (map seen_helper helpers.now)) name.now }
{
    for known in helpers {
        if *name == known.name {
            return true;
        }
    }
    false
}

pub fn is_trule(trules: &[TRule], name: &Symbol) -> bool
    ensures { result ≡ contains (trule_names (map seen_trule trules.now)) name.now }
{
    for known in trules {
        if *name == known.name {
            return true;
        }
    }
    false
}

pub fn is_irule(irules: &[IRule], name: &Symbol) -> bool
    ensures { result ≡ contains (irule_names (map seen_irule irules.now)) name.now }
{
    for known in irules {
        if *name == known.name {
            return true;
        }
    }
    false
}
