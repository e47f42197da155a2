// Evaluation, which keeps what is still to be done in memory and not on the call stack.
ghost use Rattle.std.specs.Prelude.{◌≡◌, [], IfOk};
ghost use Rattle.rule_ast.specs.Seen.{seen_expr};
ghost use Rattle.action_eval.specs.Machine.{ended_from, value_in_frame};
ghost use Rattle.action_eval.specs.SeenMachine.{seen_machine, seen_within};

use crate::machine::{Machine, Task};
use crate::stepping::{Within, step};
use pr_value::{Memory, Value};
use rule_ast::Expr;
use std::alloc::Global;

/// Does all tasks, and answers the value that they end with.
fn run<'a>(alloc: Global, within: &Within<'a>, machine: &mut Machine<'a>) -> Result<Value, Memory>
    ensures { IfOk result (λ v.
        v ≡ (ended_from (seen_within within.now) (seen_machine machine.old)).0) }
{
    while let Some(task) = machine.pop_task() {
        step(alloc, task, within, machine)?;
    }
    let value = machine.pop_value().into_value(alloc)?;
    Ok(value)
}

/// The value of an expression outside of all helpers and folds.
pub fn evaluate<'a>(alloc: Global, e: &'a Expr, within: &Within<'a>) -> Result<Value, Memory>
    ensures { IfOk result (λ v.
        v ≡ value_in_frame (seen_within within.now) [] (seen_expr e.now)) }
{
    let mut machine = Machine::new(alloc);
    machine.push_task(Task::Eval(e))?;
    let value = run(alloc, within, &mut machine)?;
    Ok(value)
}
