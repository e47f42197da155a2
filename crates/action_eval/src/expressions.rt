ghost use Rattle.std.specs.Prelude.{◌≡◌, true, Some, IfOk};
ghost use Rattle.pr_value.specs.Values.{has_kind};
ghost use Rattle.pr_value.specs.declared.kind.Kind.{Kind};
ghost use Rattle.rule_ast.specs.Seen.{seen_expr};
ghost use Rattle.action_eval.specs.Environments.{IsSound, type_in, value_here};
ghost use Rattle.action_eval.specs.SeenEnv.{seen_env};

use crate::env::Env;
use crate::evaluation::evaluate;
use crate::stepping::Within;
use catalog::Catalog;
use pr_value::{Memory, Value};
use rule_ast::Expr;
use std::alloc::Global;

/// The value of an expression. Where it is well typed, numbers are 0 to 10^18; a name that stands for
/// nothing is 0.
pub fn eval(alloc: Global, e: &Expr, env: &Env, catalog: &Catalog) -> Result<Value, Memory>
    ensures value { IfOk result (λ v. v ≡ value_here (seen_env env.now) catalog.now (seen_expr e.now)) }
    ensures kind { IfOk result (λ v. (t : Kind) → IsSound (seen_env env.now) → type_in (seen_env env.now) (seen_expr e.now) ≡ Some t → has_kind t v ≡ true) }
{
    let within = Within {
        env,
        rules: env.rules(),
        catalog,
    };
    let value = evaluate(alloc, e, &within)?;
    Ok(value)
}
