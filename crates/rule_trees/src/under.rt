// What trees are built and rewritten under.
ghost use Rattle.std.specs.Prelude.{◌≡◌, None};
ghost use Rattle.property_classes.specs.Classes.{classes_of};
ghost use Rattle.rule_ast.specs.SeenRules.{seen_rules};
ghost use Rattle.rule_types.specs.Conditions.{refused_by};

use catalog::Catalog;
use descriptor_types::Layout;
use property_classes::Classes;
use rule_ast::Rules;

/// Accepted rules, with the layout and the classes of their properties, and a catalog.
#[derive(Clone, Copy)]
pub struct Under<'a> {
    pub rules: &'a Rules,
    pub layout: &'a Layout,
    pub classes: &'a Classes,
    pub catalog: &'a Catalog,
    pub ghost accepted: { refused_by (seen_rules rules.now) ≡ None },
    pub ghost laid_out: { layout.now ≡ rules.now.properties },
    pub ghost classed: { classes.now ≡ classes_of (seen_rules rules.now) },
}
