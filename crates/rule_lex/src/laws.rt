ghost use Rattle.rule_lex.specs.Laws.{OneList, OneFault, NeverBoth, SpacedLexes};

/// A text has at most one list of tokens or one fault, and never both. The texts of tokens with
/// blanks between are a text of just these tokens.
pub fn token_laws()
    ensures one_list { OneList }
    ensures one_fault { OneFault }
    ensures never_both { NeverBoth }
    ensures spaced { SpacedLexes }
{}
