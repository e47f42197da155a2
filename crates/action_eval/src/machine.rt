// The stacks of the machine that evaluates. Nothing here goes deeper than one call.
ghost use Rattle.std.specs.Prelude.{◌≡◌, ◌∷◌, take, drop, reverse, IfSome, IfNone, IfOk, OnOk, []};
ghost use Rattle.rule_ast.specs.Seen.{seen_expr};
ghost use Rattle.action_eval.specs.Builtins.{at};
ghost use Rattle.action_eval.specs.Machine as spec;
ghost use Rattle.action_eval.specs.SeenMachine.{seen_task, seen_frame, seen_machine};

use crate::held::Held;
use pr_value::{Memory, Symbol, Value};
use rule_ast::{BinOp, Expr, FoldKind, Param};
use std::alloc::Global;

/// What is made of values.
#[derive(Drop)]
pub enum Maker<'a> {
    Set,
    List,
    Binary(BinOp),
    /// What a function gives of them.
    Call(&'a Symbol),
    /// What a fold makes of a set or list, and of the values at its members behind it.
    Fold(FoldKind),
}

/// What is still to be done.
#[derive(Drop)]
pub enum Task<'a> {
    Eval(&'a Expr),
    /// Makes something of so many values.
    Make(Maker<'a>, usize),
    /// Evaluates a fold's body at each member of the value that was made.
    Turns(FoldKind, &'a Symbol, &'a Expr),
    /// Evaluates it at a member.
    Turn(&'a Symbol, Symbol, &'a Expr),
    /// Leaves the innermost frame.
    Leave,
}

/// What names stand for, within those frames that are further out.
#[derive(Drop)]
pub enum Frame<'a> {
    /// A helper's body, which sees its parameters and so many helpers alone.
    Body(&'a [Param], Vec<Held<'a>>, usize),
    /// A fold's name, with a member.
    Member(&'a Symbol, Symbol),
}

#[derive(Drop)]
pub struct Machine<'a> {
    pub tasks: Vec<Task<'a>>,
    pub frames: Vec<Frame<'a>>,
    pub values: Vec<Held<'a>>,
}

impl<'a> Machine<'a> {
    /// A machine with nothing to do, which takes no memory yet.
    pub fn new(alloc: Global) -> Machine<'a>
        ensures { seen_machine result ≡ record { tasks = []; frames = []; values = [] } }
    {
        Machine {
            tasks: Vec::new(alloc),
            frames: Vec::new(alloc),
            values: Vec::new(alloc),
        }
    }

    pub fn push_task(&mut self, task: Task<'a>) -> Result<(), Memory>
        ensures { OnOk result (seen_machine self.new ≡ record (seen_machine self.old) {
          tasks = seen_task task.entry ∷ (seen_machine self.old).tasks;
        }) }
    {
        self.tasks.push(task)?;
        Ok(())
    }

    pub fn push_held(&mut self, value: Held<'a>) -> Result<(), Memory>
        ensures { OnOk result (seen_machine self.new ≡ record (seen_machine self.old) {
          values = value.entry ∷ (seen_machine self.old).values;
        }) }
    {
        self.values.push(value)?;
        Ok(())
    }

    pub fn push_value(&mut self, value: Value) -> Result<(), Memory>
        ensures { OnOk result (seen_machine self.new ≡ record (seen_machine self.old) {
          values = value ∷ (seen_machine self.old).values;
        }) }
    {
        self.push_held(Held::own(value))?;
        Ok(())
    }

    /// The next task, which is taken off.
    pub fn pop_task(&mut self) -> Option<Task<'a>>
        ensures some { IfSome result (λ t. seen_machine self.old ≡ record (seen_machine self.new) {
          tasks = seen_task t ∷ (seen_machine self.new).tasks;
        }) }
        ensures none { IfNone result ((seen_machine self.old).tasks ≡ []) }
        ensures stays { IfNone result (seen_machine self.new ≡ seen_machine self.old) }
    {
        self.tasks.pop()
    }

    /// The latest value, which is taken off; 0 where there is none.
    pub fn pop_value(&mut self) -> Held<'a>
        ensures { result ≡ at (seen_machine self.old).values 0 }
    {
        match self.values.pop() {
            Some(value) => value,
            None => Held::own(Value::Num(0)),
        }
    }

    /// Leaves the innermost frame, if there is one.
    pub fn leave(&mut self)
        ensures { seen_machine self.new ≡ record (seen_machine self.old) {
          frames = drop 1 (seen_machine self.old).frames;
        } }
    {
        self.frames.pop();
    }

    /// Evaluates within a further frame, which is left behind it.
    pub fn enter(&mut self, frame: Frame<'a>, body: &'a Expr) -> Result<(), Memory>
        ensures { OnOk result (seen_machine self.new ≡ record (seen_machine self.old) {
          tasks = spec.eval (seen_expr body.now) ∷ spec.leave ∷ (seen_machine self.old).tasks;
          frames = seen_frame frame.entry ∷ (seen_machine self.old).frames;
        }) }
    {
        self.frames.push(frame)?;
        self.tasks.push(Task::Leave)?;
        self.tasks.push(Task::Eval(body))?;
        Ok(())
    }

    /// The latest values, in the order in which they came, which are taken off.
    pub fn take(&mut self, alloc: Global, count: usize) -> Result<Vec<Held<'a>>, Memory>
        ensures taken { IfOk result (λ vs.
            vs.items ≡ reverse (take count (seen_machine self.old).values)) }
        ensures left { OnOk result (seen_machine self.new ≡ record (seen_machine self.old) {
          values = drop count (seen_machine self.old).values;
        }) }
    {
        let front = self.values.len().saturating_sub(count);
        let taken = self.values.split_off(front)?;
        Ok(taken)
    }
}
