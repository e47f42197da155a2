ghost use Rattle.std.specs.Prelude.{◌≡◌, ◌&&◌, Some, None, nat_le, option_map, option_and_then, if◌then◌else◌};
ghost use Rattle.std.specs.List.{list_all};
ghost use Rattle.pr_value.specs.Capped.{cap};
ghost use Rattle.rule_ast.specs.Typing.{same_type, binary_type, is_collection, member_type, fold_type, of_symbols, is_symbol_type};

use pr_value::{CAP, Kind};
use rule_ast::{BinOp, FoldKind, same_type};

/// The type of a number, where it is within the cap.
pub fn number_type(n: u64) -> Option<Kind>
    ensures { result ≡ (if nat_le n cap then Some Kind.Num else None) }
{
    (n <= CAP).then_some(Kind::Num)
}

fn are_symbols(types: &[Kind]) -> bool
    ensures { result ≡ list_all is_symbol_type types.now }
{
    types.iter().all(|kind| same_type(Kind::Symbol, *kind))
}

fn members_type(made: Kind, types: &[Kind]) -> Option<Kind>
    ensures { result ≡ of_symbols made types.now }
{
    are_symbols(types).then_some(made)
}

/// The kind of a set or a list, where its members have types and are symbols.
pub fn of_symbols(made: Kind, types: Option<Vec<Kind>>) -> Option<Kind>
    ensures { result ≡ option_and_then (of_symbols made) (option_map (λ v. v.items) types) }
{
    let types = types?;
    members_type(made, types.as_slice())
}

// What two values of a type give together.
fn of_both(taken: Kind, left: Kind, right: Kind, given: Kind) -> Option<Kind>
    ensures { result ≡ (if same_type taken left && same_type taken right then Some given else None) }
{
    (same_type(taken, left) && same_type(taken, right)).then_some(given)
}

fn operands_type(op: BinOp, left: Kind, right: Kind) -> Option<Kind>
    ensures { result ≡ binary_type op left right }
{
    match op {
        BinOp::Add | BinOp::Sub | BinOp::Mul | BinOp::Div => {
            of_both(Kind::Num, left, right, Kind::Num)
        }
        BinOp::Equal | BinOp::NotEqual => same_type(left, right).then_some(Kind::Truth),
        BinOp::Less | BinOp::LessEqual | BinOp::Greater | BinOp::GreaterEqual => {
            of_both(Kind::Num, left, right, Kind::Truth)
        }
        BinOp::And | BinOp::Or => of_both(Kind::Truth, left, right, Kind::Truth),
    }
}

/// What an operator gives, where both sides have types.
pub fn binary_type(op: BinOp, left: Option<Kind>, right: Option<Kind>) -> Option<Kind>
    ensures { result ≡ option_and_then (λ t. option_and_then (binary_type op t) right) left }
{
    operands_type(op, left?, right?)
}

fn is_collection(kind: Kind) -> bool
    ensures { result ≡ is_collection kind }
{
    matches!(kind, Kind::Set | Kind::List)
}

fn member_type(fold: FoldKind, over: Kind, body: Kind) -> Option<Kind>
    ensures { result ≡ member_type fold over body }
{
    match fold {
        FoldKind::Sum | FoldKind::Product => same_type(Kind::Num, body).then_some(Kind::Num),
        FoldKind::Any | FoldKind::All => same_type(Kind::Truth, body).then_some(Kind::Truth),
        FoldKind::Keep => same_type(Kind::Truth, body).then_some(over),
    }
}

fn parts_type(fold: FoldKind, over: Kind, body: Kind) -> Option<Kind>
    ensures { result ≡ fold_type fold over body }
{
    if is_collection(over) {
        member_type(fold, over, body)
    } else {
        None
    }
}

/// What a fold gives, where what it goes over and its body have types.
pub fn fold_type(fold: FoldKind, over: Option<Kind>, body: Option<Kind>) -> Option<Kind>
    ensures { result ≡ option_and_then (λ t. option_and_then (fold_type fold t) body) over }
{
    parts_type(fold, over?, body?)
}
