// Laws of the goals of a query.
ghost use Rattle.tree_terms.specs.GoalLaws.{GoalsAreTrees, SameGoalTurns, SameGoalChains};
ghost use Rattle.rule_ast.specs.SeenRules.{seen_rules};

use catalog::Catalog;
use rule_types::Accepted;

/// What holds of the goals of a query: they are of trees of the rules, with values that fit; and to
/// be the same goal turns round and goes on.
pub fn goal_laws(a: &Accepted, catalog: &Catalog)
    ensures trees { GoalsAreTrees (seen_rules a.now.rules) catalog.now }
    ensures turns { SameGoalTurns (seen_rules a.now.rules) catalog.now }
    ensures chains { SameGoalChains (seen_rules a.now.rules) catalog.now }
{
    let _catalog = catalog;
    let _rules = a.rules();
}
