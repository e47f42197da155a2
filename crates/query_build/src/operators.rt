// Operators by their places.
ghost use Rattle.std.specs.Prelude.{◌≡◌, ◌<◌, length, map, Some, slice_get};
ghost use Rattle.rule_ast.specs.Seen.{seen_operator};

use rule_ast::Operator;

/// The operator at a place.
pub(crate) fn declared_at<'a>(operators: &'a [Operator], place: usize) -> &'a Operator
    requires { place < length operators.now }
    ensures { slice_get (map seen_operator operators.now) place ≡ Some (seen_operator result.now) }
{
    &operators[place]
}
