// Laws of trees that are joined.
ghost use Rattle.tree_terms.specs.EqualityLaws.{QuietDepthIsFinal, AlikeAreJoined, EnforcersStayApart, CountDecidesFull, JoinedGrows, LinesAreJoined, DisagreeIsOn, LoopIsAt};
ghost use Rattle.rule_ast.specs.SeenRules.{seen_rules};

use catalog::Catalog;
use rule_types::Accepted;

/// What holds of trees that are joined by the T-rules of an accepted rule set: once a depth joins
/// nothing new, no later one does; trees that are met and alike are joined; a tree with an enforcer
/// at its root is joined to trees that are alike alone; a list that has one of each kind of trees
/// tells whether there are too many; what is joined stays so at the next depth, and is what some
/// list of lines equates; trees that disagree do so on some property; and a tree that equals a
/// proper part of itself has an operator at its root.
pub fn equality_laws(a: &Accepted, catalog: &Catalog)
    ensures quiet { QuietDepthIsFinal (seen_rules a.now.rules) catalog.now }
    ensures alike { AlikeAreJoined (seen_rules a.now.rules) catalog.now }
    ensures apart { EnforcersStayApart (seen_rules a.now.rules) catalog.now }
    ensures count { CountDecidesFull (seen_rules a.now.rules) catalog.now }
    ensures grows { JoinedGrows (seen_rules a.now.rules) catalog.now }
    ensures lines { LinesAreJoined (seen_rules a.now.rules) catalog.now }
    ensures disagree { DisagreeIsOn (seen_rules a.now.rules) catalog.now }
    ensures looping { LoopIsAt (seen_rules a.now.rules) catalog.now }
{
    let _catalog = catalog;
    let _rules = a.rules();
    a.side_laws();
}
