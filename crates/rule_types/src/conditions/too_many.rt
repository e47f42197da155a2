ghost use Rattle.std.specs.Prelude.{◌≡◌};
ghost use Rattle.rule_types.specs.Conditions as spec;
ghost use Rattle.rule_types.specs.SeenDeclarations.{seen_declaration};

use crate::declaration::Declaration;

const MOST_PROPERTIES: usize = 64;

const MOST_DECLARED: usize = 255;

/// Whether the declaration is past the limit of its section.
pub fn too_many(d: &Declaration) -> bool
    ensures { result ≡ spec.too_many (seen_declaration d.now) }
{
    match d {
        Declaration::Property { before, .. } => before.len() >= MOST_PROPERTIES,
        Declaration::Operator { before, .. } => before.len() >= MOST_DECLARED,
        Declaration::Algorithm { before, .. } => before.len() >= MOST_DECLARED,
        Declaration::Helper { before, .. } => before.len() >= MOST_DECLARED,
        Declaration::TRule { before, .. } => before.len() >= MOST_DECLARED,
        Declaration::IRule { before, .. } => before.len() >= MOST_DECLARED,
    }
}
