ghost use Rattle.std.specs.Prelude.{◌≡◌, ℕ, true, map, take, [], ◌∷◌, OnOk, OnErr};
ghost use Rattle.rule_ast.specs.Seen.{seen_stmt};
ghost use Rattle.action_eval.specs.Environments.{IsSound, are_typed_here, after, context_of};
ghost use Rattle.action_eval.specs.SeenEnv.{seen_env};

use crate::env::Env;
use crate::expressions::eval;
use catalog::Catalog;
use pr_value::Memory;
use rule_ast::Stmt;
use std::alloc::Global;

/// Runs the statements in order. After an error those before some place have been run, and no
/// others.
pub fn run_statements(
    alloc: Global,
    statements: &[Stmt],
    env: &mut Env,
    catalog: &Catalog,
) -> Result<(), Memory>
    requires sound { IsSound (seen_env env.old) }
    requires typed { are_typed_here (seen_env env.old) (map seen_stmt statements.now) ≡ true }
    ensures ok { OnOk result (seen_env env.new ≡ after (seen_env env.old) catalog.now (map seen_stmt statements.now)) }
    ensures err { OnErr result ((n : ℕ) × (seen_env env.new ≡ after (seen_env env.old) catalog.now (take n (map seen_stmt statements.now)))) }
    ensures sound { IsSound (seen_env env.new) }
    ensures context { context_of (seen_env env.new) ≡ context_of (seen_env env.old) }
{
    for statement in statements {
        run_statement(alloc, statement, env, catalog)?;
    }
    Ok(())
}

fn run_statement(
    alloc: Global,
    statement: &Stmt,
    env: &mut Env,
    catalog: &Catalog,
) -> Result<(), Memory>
    requires sound { IsSound (seen_env env.old) }
    requires typed { are_typed_here (seen_env env.old) (seen_stmt statement.now ∷ []) ≡ true }
    ensures ok { OnOk result (seen_env env.new ≡ after (seen_env env.old) catalog.now (seen_stmt statement.now ∷ [])) }
    ensures err { OnErr result (seen_env env.new ≡ seen_env env.old) }
    ensures sound { IsSound (seen_env env.new) }
    ensures context { context_of (seen_env env.new) ≡ context_of (seen_env env.old) }
{
    match statement {
        Stmt::Set {
            desc,
            property,
            value,
        } => {
            let value = eval(alloc, value, env, catalog)?;
            env.set_property(desc, property, value);
            Ok(())
        }
        Stmt::Copy { to, from } => {
            env.copy_desc(alloc, to, from)?;
            Ok(())
        }
    }
}
