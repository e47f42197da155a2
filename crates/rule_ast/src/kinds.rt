ghost use Rattle.std.specs.Prelude.{◌≡◌};
ghost use Rattle.std.specs.List.{list_all, zip};
ghost use Rattle.rule_ast.specs.Typing.{type_of_kind, same_type, same_types, is_type};

use pr_value::Kind;

/// The type of what is declared of a kind.
pub fn type_of_kind(kind: Kind) -> Kind
    ensures { result ≡ type_of_kind kind }
{
    match kind {
        Kind::Cost => Kind::Num,
        other => other,
    }
}

pub fn same_type(a: Kind, b: Kind) -> bool
    ensures { result ≡ same_type a b }
{
    a == b
}

#[tactic(auto, using(crate::proofs::KindLaws::kind_laws))]
pub fn same_types(a: &[Kind], b: &[Kind]) -> bool
    ensures { result ≡ same_types a.now b.now }
{
    a.len() == b.len() && each_same(a, b)
}

fn each_same(a: &[Kind], b: &[Kind]) -> bool
    ensures { result ≡ list_all (λ z. same_type z.0 z.1) (zip a.now b.now) }
{
    a.iter().zip(b).all(|(a, b)| same_type(*a, *b))
}

/// Whether the type is there, and is this one.
pub fn is_type(kind: Kind, found: Option<Kind>) -> bool
    ensures { result ≡ is_type kind found }
{
    match found {
        Some(other) => same_type(kind, other),
        None => false,
    }
}
