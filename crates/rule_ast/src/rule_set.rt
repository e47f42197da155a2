ghost use Rattle.std.specs.Prelude.{◌≡◌, true};
ghost use Rattle.rule_ast.specs.Seen.{seen_parts};
ghost use Rattle.rule_ast.specs.Spelled.{spells};

use crate::parts::{Algorithm, Helper, IRule, Operator, TRule};
use pr_value::{Items, Property};

/// A rule set that the grammar spells, with each section in the order of its text.
#[derive(Drop)]
pub struct Rules {
    pub properties: Items<Property>,
    pub operators: Items<Operator>,
    pub algorithms: Items<Algorithm>,
    pub helpers: Items<Helper>,
    pub trules: Items<TRule>,
    pub irules: Items<IRule>,
    pub ghost spelled: { spells (seen_parts properties operators algorithms helpers trules irules) ≡ true },
}
