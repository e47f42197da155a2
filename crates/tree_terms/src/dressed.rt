// Laws of trees of labels that hold their views.
ghost use Rattle.tree_terms.specs.DressedLaws.{StepsKeepTrees, JoinedAreTrees, StepsAreDressed, DressedAreJoined, OnlyDressedAreJoined, AllStopsAreDressed};
ghost use Rattle.rule_ast.specs.SeenRules.{seen_rules};

use catalog::Catalog;
use rule_types::Accepted;

/// What holds of trees of an accepted rule set, and of the trees of labels that hold their views:
/// steps and derivations keep to trees of the rules, steps are the same on both, and trees are
/// joined exactly where they are joined with their views, with which no others are joined; and what
/// stops the rounds is the same of both.
pub fn dressed_laws(a: &Accepted, catalog: &Catalog)
    ensures keep { StepsKeepTrees (seen_rules a.now.rules) catalog.now }
    ensures trees { JoinedAreTrees (seen_rules a.now.rules) catalog.now }
    ensures steps { StepsAreDressed (seen_rules a.now.rules) catalog.now }
    ensures joined { DressedAreJoined (seen_rules a.now.rules) catalog.now }
    ensures only { OnlyDressedAreJoined (seen_rules a.now.rules) catalog.now }
    ensures stops { AllStopsAreDressed (seen_rules a.now.rules) catalog.now }
{
    let _catalog = catalog;
    let _rules = a.rules();
}
