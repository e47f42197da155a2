ghost use Rattle.prairie_top.specs.Laws.{OneExists, OneCost, OneAnswer, OneText, OnlyBest, Complete, NeverFails, NeverUnwritten, PrintsTokens};

use catalog::catalog_laws;
use prairie_words::meaning_laws;
use rule_lex::token_laws;
use rule_syntax::spelling_laws;

/// Where accepted rules have a tree of the query, there is a best plan or none at all, and not both;
/// all best plans have one cost. The answers of `run` exclude each other, and some have one text;
/// whatever the shelf tells, a plan is a best one of some accepted rules, catalog and query;
/// `plan` over texts that are read ends with the outcome, or for want of memory, where nothing
/// fails; a shelf that is sure and holds the texts is no cause of a read fault, and a sink that does
/// not fail of no write fault.
pub fn outcome_laws()
    ensures one_exists { OneExists }
    ensures one_cost { OneCost }
    ensures one_answer { OneAnswer }
    ensures one_text { OneText }
    ensures only_best { OnlyBest }
    ensures complete { Complete }
    ensures sure { NeverFails }
    ensures written { NeverUnwritten }
{
    catalog_laws();
    token_laws();
    spelling_laws();
    meaning_laws();
}

/// What is printed of a rule set has the rule set's tokens, and so reads as it.
pub fn printing_laws()
    ensures { PrintsTokens }
{
    token_laws();
    spelling_laws();
}
