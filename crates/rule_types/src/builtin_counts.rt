// How many arguments the built-in functions take.
ghost use Rattle.std.specs.Prelude.{◌≡◌};
ghost use Rattle.rule_ast.specs.Typing.{builtins};
ghost use Rattle.rule_types.specs.BuiltinCounts.{is_lookup, takes};
ghost use Rattle.rule_types.specs.Conditions.{has_signature};

use pr_value::Symbol;
use rule_ast::{Builtin, builtin_of};

fn is_lookup(arguments: usize) -> bool
    ensures { result ≡ is_lookup arguments }
{
    2 == arguments || (3 == arguments || (4 == arguments || 5 == arguments))
}

fn takes(function: Builtin, arguments: usize) -> bool
    ensures { result ≡ takes function arguments }
{
    match function {
        Builtin::If => 3 == arguments,
        Builtin::Not | Builtin::Log2 | Builtin::Size | Builtin::Length | Builtin::Elems => {
            1 == arguments
        }
        Builtin::NumAt | Builtin::TruthAt | Builtin::SymbolAt | Builtin::SetAt | Builtin::ListAt =>
            is_lookup(arguments),
        Builtin::Min
        | Builtin::Max
        | Builtin::Union
        | Builtin::Minus
        | Builtin::Meet
        | Builtin::Has
        | Builtin::Subset
        | Builtin::At
        | Builtin::Prefix
        | Builtin::Concat => 2 == arguments,
    }
}

/// Whether some row of that name has so many parameters.
#[tactic(auto, using(crate::proofs::BuiltinCountLaws::builtin_laws))]
pub fn builtin_takes(name: &Symbol, arguments: usize) -> bool
    ensures { result ≡ has_signature builtins name.now arguments }
{
    match builtin_of(name.as_slice()) {
        Some(function) => takes(function, arguments),
        None => false,
    }
}
