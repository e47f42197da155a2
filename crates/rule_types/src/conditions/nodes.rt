// Conditions on how many operators a side has.
ghost use Rattle.std.specs.Prelude.{◌≡◌};
ghost use Rattle.rule_types.specs.Conditions as spec;
ghost use Rattle.rule_types.specs.SeenDeclarations.{seen_declaration};

use crate::declaration::Declaration;
use crate::nodes::{left_nodes, right_nodes};

const MOST_NODES: u64 = 8;

/// Whether a side of the rule has too many operators.
#[tactic(auto, using(crate::proofs::NodeLaws::limit_laws))]
pub fn too_many_nodes(d: &Declaration) -> bool
    ensures { result ≡ spec.too_many_nodes (seen_declaration d.now) }
{
    match d {
        Declaration::TRule { this, .. } => {
            left_nodes(&this.left) > MOST_NODES || right_nodes(&this.right) > MOST_NODES
        }
        Declaration::IRule { this, .. } => left_nodes(&this.left) > MOST_NODES,
        _ => false,
    }
}

/// Whether the declaration is an I-rule with more than one operator on its left side.
#[tactic(auto, using(crate::proofs::NodeLaws::limit_laws))]
pub fn left_not_flat(d: &Declaration) -> bool
    ensures { result ≡ spec.left_not_flat (seen_declaration d.now) }
{
    match d {
        Declaration::IRule { this, .. } => left_nodes(&this.left) > 1,
        _ => false,
    }
}
