// Laws of the syntax that no reader states alone.
ghost use Rattle.rule_syntax.specs.DistinctQueries.{DistinctQueries};
ghost use Rattle.rule_syntax.specs.DistinctRules.{DistinctRules};
ghost use Rattle.rule_syntax.specs.Printable.{HasTexts};

/// No two rule sets, and no two queries, that the grammar spells have the same tokens, and each
/// token of a rule set has a text.
pub fn spelling_laws()
    ensures rules { DistinctRules }
    ensures queries { DistinctQueries }
    ensures texts { HasTexts }
{}
