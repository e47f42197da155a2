ghost use Rattle.std.specs.Prelude.{◌≡◌, ◌<◌, [], false, true, Some, slice_get, length, take, ◌↔◌, IfOk, OnOk, OnErr, Err, ℕ};
ghost use Rattle.derivation.specs.Log.{LogValue, Pushes, JustifiesNone};
ghost use Rattle.memo.specs.Memos.{MemoValue, IsViewOf, ClassesAreEquated, HasProvedLines, Adds, Notes, Settles, spoilt_by};
ghost use Rattle.memo.specs.Grew.{Begins, Grew};
ghost use Rattle.memo.specs.Forest.{HasLine};
ghost use Rattle.memo.specs.Counts.{classes_from, lives};
ghost use Rattle.memo.specs.Members.{exprs_of};
ghost use Rattle.memo.specs.Start.{IsFresh};
ghost use Rattle.memo.specs.declared.expr.Expr.{Expr};

use crate::adding::{add_in, join_in};
use crate::counts::{Counts, count_all};
use crate::expr::{Expr, Join, Known};
use crate::homes::expr_get;
use crate::learn::equate_in;
use crate::members::{Members, extend, group_all, members_get, regroup};
use crate::settle::settle_in;
use crate::start::start;
use derivation::{Label, Log, PushError, Reason, Steps, Term};
use indexmap::IndexMap;
use pr_value::Memory;
use std::alloc::Global;
use std::marker::Model;

#[derive(Clone, Copy, PartialEq, Eq, Debug)]
pub enum MemoError {
    Memory,
    Spoilt,
}

/// A log, and classes of trees that it equates.
#[derive(Drop)]
pub struct Memo<L: Label, S: Steps<L>> {
    log: Log<L, S>,
    exprs: Vec<Expr<L>>,
    index: IndexMap<Term<L>, usize>,
    known: Vec<Option<Known>>,
    joins: Vec<Join>,
    members: Vec<Members>,
    spoilt: bool,
}

impl<L: Label, S: Steps<L>> Model for Memo<L, S> {
    ghost use Rattle.std.specs.Prelude.{◌≡◌, false};
    ghost use Rattle.memo.specs.Memos.{MemoValue};
    ghost use Rattle.memo.specs.Members.{IsGrouped};

    ghost Value = { MemoValue L S };

    ghost view = { λ m. record { log = m.log; exprs = m.exprs.items; joins = m.joins.items; spoilt = m.spoilt } };

    ghost invariant = { λ m. m.spoilt ≡ false → IsGrouped m.log.terms m.log.lines m.exprs.items m.known.items m.index.entries m.joins.items m.members.items };
}

/// Marks a memo that ran out of memory.
fn spoil(spoilt: &mut bool) -> MemoError
    ensures error { result ≡ MemoError.Memory }
    ensures marked { spoilt.new ≡ true }
{
    *spoilt = true;
    MemoError::Memory
}

impl<L: Label + Drop, S: Steps<L>> Memo<L, S> {
    /// A class for each node of the query, in the order of the nodes' numbers.
    pub fn new(alloc: Global, log: Log<L, S>) -> Result<Memo<L, S>, Memory>
    where
        S: Drop,
        ensures fresh { IfOk result (λ m. (m.spoilt ≡ false) × (m.joins ≡ [])) }
        ensures grew { IfOk result (λ m. Grew log m.log) }
        ensures nodes { IfOk result (λ m. IsFresh log.terms log.query m.log.lines m.exprs) }
    {
        let mut log = log;
        let mut exprs = Vec::new(alloc);
        let mut index = IndexMap::new(alloc);
        let mut known = Vec::new(alloc);
        start(alloc, &mut log, &mut exprs, &mut index, &mut known)?;
        let members = group_all(alloc, exprs.as_slice())?;
        Ok(Memo {
            log,
            exprs,
            index,
            known,
            joins: Vec::new(alloc),
            members,
            spoilt: false,
        })
    }

    /// The number of classes that are not merged into older ones, and of expressions.
    pub fn counts(&self) -> Counts
        ensures classes { result.classes ≡ classes_from 0 self.now.exprs }
        ensures expressions { result.expressions ≡ lives self.now.exprs }
    {
        count_all(self.exprs.as_slice())
    }

    /// The label of the oldest expression of a class.
    pub fn view(&self, class: usize) -> &L
        requires sound { self.now.spoilt ≡ false }
        requires there { class < length self.now.exprs }
        ensures { IsViewOf self.now class result.now }
    {
        let e = expr_get(self.exprs.as_slice(), class);
        let oldest = expr_get(self.exprs.as_slice(), e.class);
        &oldest.label
    }

    pub fn expr_label(&self, expr: usize) -> &L
        requires there { expr < length self.now.exprs }
        ensures { (e : Expr L) × (slice_get self.now.exprs expr ≡ Some e) × (result.now ≡ e.label) }
    {
        &expr_get(self.exprs.as_slice(), expr).label
    }

    pub fn expr_inputs(&self, expr: usize) -> &[usize]
        requires there { expr < length self.now.exprs }
        ensures { (e : Expr L) × (slice_get self.now.exprs expr ≡ Some e) × (result.now ≡ e.inputs) }
    {
        expr_get(self.exprs.as_slice(), expr).inputs.as_slice()
    }

    /// The line whose right tree has the expression's label over trees of its input classes.
    pub fn expr_line(&self, expr: usize) -> usize
        requires there { expr < length self.now.exprs }
        ensures { (e : Expr L) × (slice_get self.now.exprs expr ≡ Some e) × (result ≡ e.line) }
    {
        expr_get(self.exprs.as_slice(), expr).line
    }

    /// The root of a class.
    pub fn find(&self, class: usize) -> usize
        requires there { class < length self.now.exprs }
        ensures { (e : Expr L) × (slice_get self.now.exprs class ≡ Some e) × (result ≡ e.class) }
    {
        expr_get(self.exprs.as_slice(), class).class
    }

    /// The expressions of a class that are there, in ascending order.
    pub fn class_exprs(&self, class: usize) -> &[usize]
        requires sound { self.now.spoilt ≡ false }
        requires there { class < length self.now.exprs }
        ensures { (e : Expr L) × (slice_get self.now.exprs class ≡ Some e) × (result.now ≡ exprs_of e.class 0 self.now.exprs) }
    {
        let e = expr_get(self.exprs.as_slice(), class);
        members_get(self.members.as_slice(), e.class)
    }

    /// The `push` of the log.
    pub fn push(&mut self, alloc: Global, why: Reason) -> Result<usize, PushError>
        ensures same { (self.new.exprs ≡ self.old.exprs) × (self.new.joins ≡ self.old.joins) × (self.new.spoilt ≡ self.old.spoilt) }
        ensures kept { take (length self.old.log.terms) self.new.log.terms ≡ self.old.log.terms }
        ensures ok { IfOk result (λ i. (i ≡ length self.old.log.lines) × Pushes (S.stepped self.old.log.steps) self.new.log.terms self.old.log.query self.old.log.lines self.new.log.lines why) }
        ensures err { OnErr result (self.new.log.lines ≡ self.old.log.lines) }
        ensures bad { result ≡ Err PushError.BadReason → JustifiesNone (S.stepped self.old.log.steps) self.old.log why × (self.new.log ≡ self.old.log) }
    {
        self.log.push(alloc, why)
    }

    pub fn log(&self) -> &Log<L, S>
        ensures { result.now ≡ self.now.log }
    {
        &self.log
    }

    /// The theorem about a memo, with nothing to run.
    pub fn equated(&self)
        requires { self.now.spoilt ≡ false }
        ensures lines { HasProvedLines self.now }
        ensures classes { ClassesAreEquated self.now }
    {
        self.log.terms().sound();
        self.log.sound();
    }

    /// The class of a label over classes, by a line whose right tree has the label over trees of
    /// them. `Memory` also where the line is no such line.
    pub fn add(
        &mut self,
        alloc: Global,
        label: L,
        inputs: &[usize],
        line: usize,
    ) -> Result<usize, MemoError>
        ensures ok { IfOk result (Adds self.old self.new label inputs.now line) }
        ensures grew { OnOk result (Grew self.old.log self.new.log) }
        ensures refused { result ≡ Err MemoError.Spoilt ↔ (self.old.spoilt ≡ true) }
        ensures spoilt { self.new.spoilt ≡ spoilt_by self.old.spoilt result }
    {
        if self.spoilt {
            return Err(MemoError::Spoilt);
        }
        let added = add_in(
            alloc,
            &mut self.log,
            &mut self.exprs,
            &mut self.index,
            &mut self.known,
            label,
            inputs,
            line,
        );
        match added {
            Ok(class) => match extend(alloc, self.exprs.as_slice(), &mut self.members) {
                Ok(()) => Ok(class),
                Err(_) => Err(spoil(&mut self.spoilt)),
            },
            Err(_) => Err(spoil(&mut self.spoilt)),
        }
    }

    /// Notes that two classes are one, by a line that equates a tree of the one with one of the
    /// other. The next `settle` merges them. `Memory` also where the line is no such line.
    pub fn join(&mut self, alloc: Global, a: usize, b: usize, line: usize) -> Result<(), MemoError>
        ensures ok { OnOk result (Notes self.old self.new a b) }
        ensures grew { OnOk result (Grew self.old.log self.new.log) }
        ensures refused { result ≡ Err MemoError.Spoilt ↔ (self.old.spoilt ≡ true) }
        ensures spoilt { self.new.spoilt ≡ spoilt_by self.old.spoilt result }
    {
        if self.spoilt {
            return Err(MemoError::Spoilt);
        }
        let joined = join_in(
            alloc,
            &mut self.log,
            self.exprs.as_slice(),
            &self.index,
            &mut self.known,
            &mut self.joins,
            a,
            b,
            line,
        );
        match joined {
            Ok(()) => Ok(()),
            Err(_) => Err(spoil(&mut self.spoilt)),
        }
    }

    /// Merges what was joined and what is alike, and no more.
    pub fn settle(&mut self, alloc: Global) -> Result<(), MemoError>
        ensures ok { OnOk result (Settles self.old self.new) }
        ensures grew { OnOk result (Grew self.old.log self.new.log) }
        ensures refused { result ≡ Err MemoError.Spoilt ↔ (self.old.spoilt ≡ true) }
        ensures spoilt { self.new.spoilt ≡ spoilt_by self.old.spoilt result }
    {
        if self.spoilt {
            return Err(MemoError::Spoilt);
        }
        let settled = settle_in(
            alloc,
            &mut self.log,
            self.exprs.as_mut_slice(),
            &mut self.index,
            self.known.as_slice(),
            &mut self.joins,
        );
        match settled {
            Ok(()) => match regroup(alloc, self.exprs.as_slice(), &mut self.members) {
                Ok(()) => Ok(()),
                Err(_) => Err(spoil(&mut self.spoilt)),
            },
            Err(_) => Err(spoil(&mut self.spoilt)),
        }
    }

    /// The line that equates two terms of one class. `Memory` also where they are not of one.
    pub fn equate(&mut self, alloc: Global, a: usize, b: usize) -> Result<usize, MemoError>
        ensures ok { IfOk result (λ i. HasLine self.new.log.lines i a b) }
        ensures same { OnOk result ((self.new.exprs ≡ self.old.exprs) × (self.new.joins ≡ self.old.joins)) }
        ensures grew { OnOk result (Grew self.old.log self.new.log) }
        ensures refused { result ≡ Err MemoError.Spoilt ↔ (self.old.spoilt ≡ true) }
        ensures spoilt { self.new.spoilt ≡ spoilt_by self.old.spoilt result }
    {
        if self.spoilt {
            return Err(MemoError::Spoilt);
        }
        let found = equate_in(
            alloc,
            &mut self.log,
            self.exprs.as_slice(),
            &self.index,
            &mut self.known,
            a,
            b,
        );
        match found {
            Ok(line) => Ok(line),
            Err(_) => Err(spoil(&mut self.spoilt)),
        }
    }

    /// The line that equates two terms of one class, on a log that begins with the memo's own.
    /// After `Memory`, which also comes where they are not of one, it may have more terms and lines.
    pub fn equate_on(
        &self,
        alloc: Global,
        log: &mut Log<L, S>,
        a: usize,
        b: usize,
    ) -> Result<usize, Memory>
        requires sound { self.now.spoilt ≡ false }
        requires begins { Begins self.now.log log.old }
        ensures line { IfOk result (λ i. HasLine log.new.lines i a b) }
        ensures grew { OnOk result (Grew log.old log.new) }
    {
        let mut known = self.known.as_slice().to_vec(alloc)?;
        let line = equate_in(
            alloc,
            log,
            self.exprs.as_slice(),
            &self.index,
            &mut known,
            a,
            b,
        )?;
        Ok(line)
    }
}
