// One step of the machine that evaluates.
ghost use Rattle.std.specs.Prelude.{◌≡◌, ◌∷◌, ◌++◌, [], map, reverse, drop, length, IfOk, OnOk};
ghost use Rattle.pr_value.specs.Values.{members_in};
ghost use Rattle.descriptor_types.specs.Descriptors.{value_of};
ghost use Rattle.rule_ast.specs.Seen.{seen_expr, exprs_of};
ghost use Rattle.action_eval.specs.Builtins.{at, binary_value};
ghost use Rattle.action_eval.specs.Folds.{fold_of};
ghost use Rattle.action_eval.specs.Meaning.{desc_in};
ghost use Rattle.action_eval.specs.Machine as spec;
ghost use Rattle.action_eval.specs.Machine.{World, Calls, CallsHelper, StepsFrom, evals, turns_at, scope_in};
ghost use Rattle.action_eval.specs.SeenMachine.{seen_frame, seen_task, seen_maker, seen_machine, seen_within};

use crate::application::apply;
use crate::collections::{list_value, set_value};
use crate::env::Env;
use crate::folds::folded;
use crate::frames::{is_in_body, seen_count, variable};
use crate::held::Held;
use crate::helpers::place_of;
use crate::machine::{Frame, Machine, Maker, Task};
use crate::operators::binary;
use crate::reading::read;
use catalog::Catalog;
use pr_value::{Memory, Symbol, Value, copy_symbols, members_in};
use rule_ast::{BinOp, Expr, FoldKind, Rules, builtin_of};
use std::alloc::Global;

/// What the machine evaluates in.
#[derive(Drop)]
pub struct Within<'a> {
    pub env: &'a Env<'a>,
    /// The environment's rules, whose helpers are called.
    pub rules: &'a Rules,
    pub catalog: &'a Catalog,
}

/// What makes something of the values of these expressions.
fn make_of<'a>(maker: Maker<'a>, es: &'a [Expr], machine: &mut Machine<'a>) -> Result<(), Memory>
    ensures { OnOk result (seen_machine machine.new ≡ record (seen_machine machine.old) {
      tasks = evals (exprs_of (map seen_expr es.now))
          ++ spec.make (seen_maker maker.entry) (length es.now) ∷ (seen_machine machine.old).tasks;
    }) }
{
    machine.push_task(Task::Make(maker, es.len()))?;
    let mut rest = es;
    while let Some((e, before)) = rest.split_last() {
        machine.push_task(Task::Eval(e))?;
        rest = before;
    }
    Ok(())
}

/// The value of a descriptor's property; 0 in a helper's body, which sees no descriptors.
fn read_in<'a>(desc: &Symbol, property: &Symbol, within: &Within<'a>, frames: &[Frame]) -> Held<'a>
    ensures { result ≡ value_of (seen_within within.now).layout property.now
        (desc_in (scope_in (seen_within within.now) (map seen_frame (reverse frames.now))).descs
        desc.now) }
{
    if is_in_body(frames) {
        return Held::own(Value::Num(0));
    }
    read(desc, property, within.env)
}

/// The first step of an expression: its value, or the tasks that make it.
pub fn begin<'a>(
    alloc: Global,
    e: &'a Expr,
    within: &Within<'a>,
    machine: &mut Machine<'a>,
) -> Result<(), Memory>
    ensures { OnOk result (StepsFrom (seen_within within.now) (spec.eval (seen_expr e.now))
        (seen_machine machine.old) (seen_machine machine.new)) }
{
    match e {
        Expr::SetOf(members) => make_of(Maker::Set, members.as_slice(), machine),
        Expr::ListOf(members) => make_of(Maker::List, members.as_slice(), machine),
        Expr::Call { name, args } => make_of(Maker::Call(name), args.as_slice(), machine),
        Expr::Binary { left, op, right } => {
            machine.push_task(Task::Make(Maker::Binary(*op), 2))?;
            machine.push_task(Task::Eval(right.get()))?;
            machine.push_task(Task::Eval(left.get()))
        }
        Expr::Fold {
            fold,
            name,
            over,
            body,
        } => {
            machine.push_task(Task::Turns(*fold, name, body.get()))?;
            machine.push_task(Task::Eval(over.get()))
        }
        Expr::Number(number) => machine.push_value(Value::Num(*number)),
        Expr::Truth(truth) => machine.push_value(Value::Truth(*truth)),
        Expr::Sym(symbol) => machine.push_value(Value::Sym(symbol.copy(alloc)?)),
        Expr::Var(name) => {
            let value = variable(alloc, name, machine.frames.as_slice())?;
            machine.push_held(value)
        }
        Expr::Read { desc, property } => {
            let value = read_in(desc, property, within, machine.frames.as_slice());
            machine.push_held(value)
        }
    }
}

/// Pushes the turns of a fold, the first on top.
fn push_turns<'a>(
    alloc: Global,
    name: &'a Symbol,
    members: &[Symbol],
    body: &'a Expr,
    machine: &mut Machine<'a>,
) -> Result<(), Memory>
    ensures { OnOk result (seen_machine machine.new ≡ record (seen_machine machine.old) {
      tasks = turns_at name.now members.now (seen_expr body.now)
          ++ (seen_machine machine.old).tasks;
    }) }
{
    let mut rest = members;
    while let Some((member, before)) = rest.split_last() {
        machine.push_task(Task::Turn(name, member.copy(alloc)?, body))?;
        rest = before;
    }
    Ok(())
}

/// Copies of the members of the latest value.
fn latest_members(alloc: Global, values: &[Held]) -> Result<Vec<Symbol>, Memory>
    ensures { IfOk result (λ ss. ss.items ≡ members_in (at (reverse values.now) 0)) }
{
    match values.split_last() {
        Some((value, _)) => copy_symbols(alloc, members_in(value.get())),
        None => Ok(Vec::new(alloc)),
    }
}

/// A fold over the value that was made: its turns, and what is made of their values.
fn begin_turns<'a>(
    alloc: Global,
    fold: FoldKind,
    name: &'a Symbol,
    body: &'a Expr,
    machine: &mut Machine<'a>,
) -> Result<(), Memory>
    ensures { (w : World) → OnOk result (StepsFrom w
        (spec.turns fold name.now (seen_expr body.now))
        (seen_machine machine.old) (seen_machine machine.new)) }
{
    let members = latest_members(alloc, machine.values.as_slice())?;
    machine.push_task(Task::Make(Maker::Fold(fold), members.len() + 1))?;
    push_turns(alloc, name, members.as_slice(), body, machine)
}

/// A call of a helper: its body, in a frame of its own, or 0 where no helper that is seen has the
/// name.
fn call_helper<'a>(
    name: &'a Symbol,
    args: Vec<Held<'a>>,
    within: &Within<'a>,
    machine: &mut Machine<'a>,
) -> Result<(), Memory>
    ensures { OnOk result (CallsHelper (seen_within within.now) name.now args.entry.items
        (seen_machine machine.old) (seen_machine machine.new)) }
{
    let all = within.rules.helpers.as_slice();
    let (seen, _) = all.split_at(seen_count(machine.frames.as_slice(), all.len()));
    match place_of(seen, name) {
        Some(place) => {
            let helper = &seen[place];
            let frame = Frame::Body(helper.params.as_slice(), args, place);
            machine.enter(frame, &helper.body)
        }
        None => machine.push_value(Value::Num(0)),
    }
}

/// A call of a built-in function or of a helper.
fn call<'a>(
    alloc: Global,
    name: &'a Symbol,
    args: Vec<Held<'a>>,
    within: &Within<'a>,
    machine: &mut Machine<'a>,
) -> Result<(), Memory>
    ensures { OnOk result (Calls (seen_within within.now) name.now args.entry.items
        (seen_machine machine.old) (seen_machine machine.new)) }
{
    match builtin_of(name.as_slice()) {
        Some(function) => {
            let value = apply(alloc, function, args.as_slice(), within.catalog)?;
            machine.push_value(value)
        }
        None => call_helper(name, args, within, machine),
    }
}

/// What an operator makes of the first two of these.
fn operated(op: BinOp, args: &[Held]) -> Value
    ensures { result ≡ binary_value op (at args.now 0) (at args.now 1) }
{
    let none = Value::Num(0);
    match args {
        [] => binary(op, &none, &none),
        [a] => binary(op, a.get(), &none),
        [a, b, ..] => binary(op, a.get(), b.get()),
    }
}

/// What a fold makes of a set or list, and of the values at its members behind it.
fn folded_args(alloc: Global, fold: FoldKind, args: &[Held]) -> Result<Value, Memory>
    ensures { IfOk result (λ v. v ≡ fold_of fold (at args.now 0) (drop 1 args.now)) }
{
    match args.split_first() {
        Some((over, values)) => folded(alloc, fold, over.get(), values),
        None => folded(alloc, fold, &Value::Num(0), &[]),
    }
}

/// Makes something of the latest values.
fn make<'a>(
    alloc: Global,
    maker: Maker<'a>,
    count: usize,
    within: &Within<'a>,
    machine: &mut Machine<'a>,
) -> Result<(), Memory>
    ensures { OnOk result (StepsFrom (seen_within within.now)
        (spec.make (seen_maker maker.entry) count)
        (seen_machine machine.old) (seen_machine machine.new)) }
{
    let args = machine.take(alloc, count)?;
    match maker {
        Maker::Set => machine.push_value(set_value(alloc, args.as_slice())?),
        Maker::List => machine.push_value(list_value(alloc, args.as_slice())?),
        Maker::Binary(op) => machine.push_value(operated(op, args.as_slice())),
        Maker::Fold(fold) => machine.push_value(folded_args(alloc, fold, args.as_slice())?),
        Maker::Call(name) => call(alloc, name, args, within, machine),
    }
}

/// One step: the task is done, or others take its place.
pub fn step<'a>(
    alloc: Global,
    task: Task<'a>,
    within: &Within<'a>,
    machine: &mut Machine<'a>,
) -> Result<(), Memory>
    ensures { OnOk result (StepsFrom (seen_within within.now) (seen_task task.entry)
        (seen_machine machine.old) (seen_machine machine.new)) }
{
    match task {
        Task::Eval(e) => begin(alloc, e, within, machine),
        Task::Make(maker, count) => make(alloc, maker, count, within, machine),
        Task::Turns(fold, name, body) => begin_turns(alloc, fold, name, body, machine),
        Task::Turn(name, member, body) => machine.enter(Frame::Member(name, member), body),
        Task::Leave => {
            machine.leave();
            Ok(())
        }
    }
}
