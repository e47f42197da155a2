ghost use Rattle.std.specs.Prelude.{◌≡◌, None};
ghost use Rattle.rule_ast.specs.SeenRules.{seen_rules};
ghost use Rattle.rule_types.specs.Conditions.{refused_by};

use descriptor_types::Layout;
use rule_ast::Rules;

/// A rule set in which no condition of refusal holds, with the layout of its descriptors.
#[derive(Drop)]
pub struct Accepted {
    pub rules: Rules,
    pub layout: Layout,
    pub ghost laid_out: { layout ≡ rules.properties },
    pub ghost accepted: { refused_by (seen_rules rules) ≡ None },
}
