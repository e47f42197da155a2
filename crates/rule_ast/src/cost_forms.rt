// The property that is the cost, and the forms that a cost expression may have.
ghost use Rattle.std.specs.Prelude.{◌≡◌, ◌||◌, codes, map};
ghost use Rattle.std.specs.Str.{bytes_eq};
ghost use Rattle.rule_ast.specs.CostForms as costs;
ghost use Rattle.rule_ast.specs.CostForms.{are_cost_forms, call_is_form, first_is_plain};
ghost use Rattle.rule_ast.specs.Seen.{seen_expr, exprs_of};

use crate::expr::{BinOp, Expr};
use crate::questions::reads_cost;
use pr_value::{Kind, Property, Symbol};

/// Whether what is declared of the kind is the cost.
pub fn is_cost(kind: Kind) -> bool
    ensures { result ≡ costs.is_cost kind }
{
    kind == Kind::Cost
}

/// The name of the first property that is a cost, or `-` where there is none.
pub fn cost_name(properties: &[Property]) -> &[u8]
    ensures { result.now ≡ costs.cost_name properties.now }
{
    for property in properties {
        if is_cost(property.kind) {
            return property.name.as_slice();
        }
    }
    b"-".as_slice()
}

/// Whether the expression has a form that never falls where an input's cost rises. `cost` is the name
/// of the property that is a cost; what does not read it is a form.
#[cycle(is_cost_form)]
pub fn is_cost_form(e: &Expr, cost: &[u8]) -> bool
    ensures { result ≡ costs.is_cost_form cost.now (seen_expr e.now) }
{
    match e {
        Expr::Read { .. } => true,
        Expr::Binary { left, op, right } => {
            !reads_cost(e, cost)
                || match op {
                    BinOp::Add => is_cost_form(left.get(), cost) && is_cost_form(right.get(), cost),
                    BinOp::Mul => !reads_cost(left.get(), cost) && is_cost_form(right.get(), cost),
                    _ => false,
                }
        }
        Expr::Call { name, args } => {
            !reads_cost(e, cost) || call_is_form(name, args.as_slice(), cost)
        }
        _ => !reads_cost(e, cost),
    }
}

#[cycle(is_cost_form)]
#[tactic(auto, using(crate::proofs::CostFormLaws::other_arguments))]
fn call_is_form(name: &Symbol, args: &[Expr], cost: &[u8]) -> bool
    ensures { result ≡ call_is_form name.now (first_is_plain cost.now (exprs_of (map seen_expr args.now))) (are_cost_forms cost.now (exprs_of (map seen_expr args.now))) }
{
    match args {
        [a, b] => is_max_or_min(name) && is_cost_form(a, cost) && is_cost_form(b, cost),
        [test, a, b] => {
            is_if(name) && !reads_cost(test, cost) && is_cost_form(a, cost) && is_cost_form(b, cost)
        }
        _ => false,
    }
}

fn is_max_or_min(name: &Symbol) -> bool
    ensures { result ≡ (bytes_eq name.now (codes "max") || bytes_eq name.now (codes "min")) }
{
    name.as_slice() == b"max".as_slice() || name.as_slice() == b"min".as_slice()
}

fn is_if(name: &Symbol) -> bool
    ensures { result ≡ bytes_eq name.now (codes "if") }
{
    name.as_slice() == b"if".as_slice()
}
