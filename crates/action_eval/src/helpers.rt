ghost use Rattle.std.specs.Prelude.{◌≡◌, false, IfSome, IfNone};
ghost use Rattle.std.specs.List.{list_any};
ghost use Rattle.std.specs.Str.{bytes_eq};
ghost use Rattle.action_eval.specs.Names.{IsLatest};

use pr_value::Symbol;
use rule_ast::Helper;

/// The place of the latest helper of that name.
pub fn place_of(helpers: &[Helper], name: &Symbol) -> Option<usize>
    ensures found { IfSome result (λ i. IsLatest helpers.now name.now i) }
    ensures none { IfNone result (list_any (λ h. bytes_eq h.name name.now) helpers.now ≡ false) }
{
    let mut left = helpers.len();
    while left > 0 {
        left -= 1;
        if helpers[left].name == *name {
            return Some(left);
        }
    }
    None
}
