// The last statement of a block, and the cost that it gives.
ghost use Rattle.std.specs.Prelude.{◌≡◌, map, option_map};
ghost use Rattle.std.specs.Option.{option_copied};
ghost use Rattle.rule_ast.specs.CostGiven as spec;
ghost use Rattle.rule_ast.specs.Seen.{seen_expr, seen_stmt};

use crate::expr::{Expr, Stmt};
use pr_value::Symbol;

// The value that the statement gives the property of the descriptor.
fn value_given<'a>(s: &'a Stmt, desc: &Symbol, cost: &[u8]) -> Option<&'a Expr>
    ensures { option_map seen_expr (option_copied result) ≡ spec.value_given desc.now cost.now (seen_stmt s.now) }
{
    match s {
        Stmt::Set {
            desc: to,
            property,
            value,
        } => {
            if to == desc && property.as_slice() == cost {
                Some(value)
            } else {
                None
            }
        }
        Stmt::Copy { .. } => None,
    }
}

/// What the last of these statements gives the cost of the descriptor.
#[tactic(auto, using(crate::proofs::RoleLaws::last_laws))]
pub fn cost_given<'a>(ss: &'a [Stmt], desc: &Symbol, cost: &[u8]) -> Option<&'a Expr>
    ensures { option_map seen_expr (option_copied result) ≡ spec.cost_given cost.now desc.now (map seen_stmt ss.now) }
{
    let last = ss.last()?;
    value_given(last, desc, cost)
}
