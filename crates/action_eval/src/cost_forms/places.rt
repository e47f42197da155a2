ghost use Rattle.std.specs.Prelude.{◌≡◌};
ghost use Rattle.rule_ast.specs.Descs.{names_of};
ghost use Rattle.action_eval.specs.Forms.{place};

use pr_value::Symbol;
use rule_ast::ImplIn;

/// The place of the input with a descriptor of that name, from 0.
pub fn place_of(inputs: &[ImplIn], desc: &Symbol) -> usize
    ensures { result ≡ place (names_of inputs.now) desc.now }
{
    for (place, input) in inputs.iter().enumerate() {
        if input.desc == *desc {
            return place;
        }
    }
    inputs.len()
}
