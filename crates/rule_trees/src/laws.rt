// Laws of what the left sides of rules match.
ghost use Rattle.rule_trees.specs.MatchLaws.{AskedMatches, LeftsAreRooted};
ghost use Rattle.rule_ast.specs.SeenRules.{seen_rules};

use rule_types::Accepted;

/// What holds of the left sides of an accepted rule set: each begins with an operator, and so what
/// is asked of a tree is seen in the first descriptor of a match alone.
pub fn match_laws(a: &Accepted)
    ensures rooted { LeftsAreRooted (seen_rules a.now.rules) }
    ensures asked { AskedMatches (seen_rules a.now.rules) }
{
    let _rules = a.rules();
}
