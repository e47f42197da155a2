ghost use Rattle.std.specs.Prelude.{◌≡◌, ◌<◌, [], Some, All, length, slice_get, IfOk, OnOk, true};
ghost use Rattle.std.specs.List.{AllZip};
ghost use Rattle.memo.specs.Adding.{IsFit, IsPut, IsKeyIn, AddsExpr, IsJoinAt, IsJoinOf};
ghost use Rattle.memo.specs.Grew.{Grew};
ghost use Rattle.memo.specs.Forest.{HasLine, EndsAt, IsForest, IsKnownIn};
ghost use Rattle.memo.specs.Kept.{IsMemo, Indexes};
ghost use Rattle.memo.specs.Learn.{AreHomed};

use crate::expr::{Expr, Join, Known};
use crate::homes::{expr_at, expr_get, known_at};
use crate::index::enter;
use crate::learn::{class_known, is_known, learn, learn_all, note_known};
use crate::lines::{chain, still, turn};
use crate::reach::inputs_of;
use crate::rebuild::roots_of;
use derivation::{Label, Log, Numbers, Steps, Term};
use indexmap::IndexMap;
use pr_value::Memory;
use std::alloc::Global;

/// Whether a term is known in a class.
fn is_in<L>(exprs: &[Expr<L>], known: &[Option<Known>], n: usize, class: usize) -> bool
    requires { AreHomed exprs.now }
    ensures { result ≡ true → IsKnownIn exprs.now known.now n class }
{
    match class_known(exprs, known, n) {
        Some(c) => match expr_at(exprs, class) {
            Some(e) => c == e.class,
            None => false,
        },
        None => false,
    }
}

/// Whether terms are known in classes, each in the one at its place.
fn are_in<L>(exprs: &[Expr<L>], known: &[Option<Known>], terms: &[usize], classes: &[usize]) -> bool
    requires { AreHomed exprs.now }
    ensures { result ≡ true → AllZip (IsKnownIn exprs.now known.now) terms.now classes.now }
{
    if terms.len() != classes.len() {
        return false;
    }
    for i in 0..terms.len() {
        if !is_in(exprs, known, terms[i], classes[i]) {
            return false;
        }
    }
    true
}

/// The right term of a line.
fn right_of<L: Label + Drop, S: Steps<L>>(log: &Log<L, S>, line: usize) -> Result<usize, Memory>
    ensures ends { IfOk result (EndsAt log.now.lines line) }
    ensures there { IfOk result (λ n. n < length log.now.terms) }
{
    if line >= log.count() {
        return Err(Memory);
    }
    let tree = log.line(line).right;
    if tree >= log.terms().count() {
        return Err(Memory);
    }
    Ok(tree)
}

/// Whether a term has the label over terms that are known in the classes.
fn is_fit<L: Label + Drop, S: Steps<L>>(
    log: &Log<L, S>,
    exprs: &[Expr<L>],
    known: &[Option<Known>],
    label: &L,
    classes: &[usize],
    tree: usize,
) -> bool
    requires homed { AreHomed exprs.now }
    requires there { tree < length log.now.terms }
    ensures { result ≡ true → IsFit log.now.terms exprs.now known.now tree label.now classes.now }
{
    let term = log.terms().term(tree);
    if !term.label.same(label) {
        return false;
    }
    are_in(exprs, known, term.inputs.as_slice(), classes)
}

/// The right term of a line, if it has the label over trees of the classes.
fn fit<L: Label + Drop, S: Steps<L>>(
    alloc: Global,
    log: &mut Log<L, S>,
    exprs: &[Expr<L>],
    index: &IndexMap<Term<L>, usize>,
    known: &mut Vec<Option<Known>>,
    label: &L,
    classes: &[usize],
    line: usize,
) -> Result<usize, Memory>
    requires forest { IsForest log.old.terms log.old.lines exprs.now known.old.items }
    requires indexed { Indexes index.now.entries exprs.now (length exprs.now) }
    ensures grew { OnOk result (Grew log.old log.new) }
    ensures forest { OnOk result (IsForest log.new.terms log.new.lines exprs.now known.new.items) }
    ensures ends { IfOk result (EndsAt log.new.lines line) }
    ensures fit { IfOk result (λ n. IsFit log.new.terms exprs.now known.new.items n label.now classes.now) }
{
    let tree = right_of(log, line)?;
    let inputs = inputs_of(alloc, log, tree)?;
    learn_all(alloc, log, exprs, index, known, tree, inputs.as_slice())?;
    if is_fit(log, exprs, known.as_slice(), label, classes, tree) {
        return Ok(tree);
    }
    Err(Memory)
}

/// Adds an expression that is alike none.
fn put<L: Label + Drop, S: Steps<L>>(
    alloc: Global,
    log: &mut Log<L, S>,
    exprs: &mut Vec<Expr<L>>,
    known: &mut Vec<Option<Known>>,
    label: L,
    inputs: Numbers,
    line: usize,
    tree: usize,
) -> Result<(), Memory>
    requires forest { IsForest log.old.terms log.old.lines exprs.old.items known.old.items }
    requires ends { EndsAt log.old.lines line tree }
    requires fit { IsFit log.old.terms exprs.old.items known.old.items tree label inputs }
    ensures grew { OnOk result (Grew log.old log.new) }
    ensures forest { OnOk result (IsForest log.new.terms log.new.lines exprs.new.items known.new.items) }
    ensures put { OnOk result (IsPut exprs.old.items exprs.new.items label inputs line tree) }
{
    let class = exprs.len();
    let home = still(alloc, log, line)?;
    exprs.push(Expr {
        label,
        inputs,
        line,
        tree,
        class,
        home,
        live: true,
    })?;
    if is_known(known.as_slice(), tree) {
        return Ok(());
    }
    let found = Known {
        expr: class,
        line: home,
    };
    note_known(known, tree, found)?;
    Ok(())
}

/// A label over the roots of classes.
fn key_in<L: Label + Drop>(
    alloc: Global,
    exprs: &[Expr<L>],
    label: &L,
    classes: &[usize],
) -> Result<Term<L>, Memory>
    requires { All (λ c. c < length exprs.now) classes.now }
    ensures { IfOk result (IsKeyIn exprs.now label.now classes.now) }
{
    let inputs = roots_of(alloc, exprs, classes)?;
    let label = label.copy(alloc)?;
    Ok(Term {
        label,
        inputs: Numbers::from_vec(inputs),
    })
}

/// The class of a label over classes, of which the term is a tree that a line ends at.
fn add_fit<L: Label + Drop, S: Steps<L>>(
    alloc: Global,
    log: &mut Log<L, S>,
    exprs: &mut Vec<Expr<L>>,
    index: &mut IndexMap<Term<L>, usize>,
    known: &mut Vec<Option<Known>>,
    label: L,
    classes: &[usize],
    line: usize,
    tree: usize,
) -> Result<usize, Memory>
    requires kept { IsMemo log.old.terms log.old.lines exprs.old.items known.old.items index.old.entries [] }
    requires ends { EndsAt log.old.lines line tree }
    requires fit { IsFit log.old.terms exprs.old.items known.old.items tree label classes.now }
    ensures grew { OnOk result (Grew log.old log.new) }
    ensures kept { OnOk result (IsMemo log.new.terms log.new.lines exprs.new.items known.new.items index.new.entries []) }
    ensures added { IfOk result (AddsExpr exprs.old.items exprs.new.items label classes.now line) }
{
    let key = key_in(alloc, exprs.as_slice(), &label, classes)?;
    let inputs = Numbers::from_slice(alloc, key.inputs.as_slice())?;
    let i = exprs.len();
    let found = enter(index, key, i)?;
    match found {
        None => {
            put(alloc, log, exprs, known, label, inputs, line, tree)?;
            Ok(i)
        }
        Some(f) => {
            let e = expr_get(exprs.as_slice(), f);
            Ok(e.class)
        }
    }
}

/// The class of a label over classes, of which the line's right tree is one.
pub fn add_in<L: Label + Drop, S: Steps<L>>(
    alloc: Global,
    log: &mut Log<L, S>,
    exprs: &mut Vec<Expr<L>>,
    index: &mut IndexMap<Term<L>, usize>,
    known: &mut Vec<Option<Known>>,
    label: L,
    classes: &[usize],
    line: usize,
) -> Result<usize, Memory>
    requires kept { IsMemo log.old.terms log.old.lines exprs.old.items known.old.items index.old.entries [] }
    ensures grew { OnOk result (Grew log.old log.new) }
    ensures kept { OnOk result (IsMemo log.new.terms log.new.lines exprs.new.items known.new.items index.new.entries []) }
    ensures added { IfOk result (AddsExpr exprs.old.items exprs.new.items label classes.now line) }
{
    let tree = fit(
        alloc,
        log,
        exprs.as_slice(),
        index,
        known,
        &label,
        classes,
        line,
    )?;
    let class = add_fit(alloc, log, exprs, index, known, label, classes, line, tree)?;
    Ok(class)
}

/// The line from the tree of a known term's expression to that of another's, by a line between the terms.
fn between_known<L: Label + Drop, S: Steps<L>>(
    alloc: Global,
    log: &mut Log<L, S>,
    exprs: &[Expr<L>],
    known: &[Option<Known>],
    a: usize,
    b: usize,
    line: usize,
) -> Result<Join, Memory>
    requires forest { IsForest log.old.terms log.old.lines exprs.now known.now }
    requires line { HasLine log.old.lines line a b }
    ensures grew { OnOk result (Grew log.old log.new) }
    ensures made { IfOk result (IsJoinAt log.new.lines exprs.now known.now a b) }
{
    let Some(left) = known_at(known, a) else {
        return Err(Memory);
    };
    let Some(right) = known_at(known, b) else {
        return Err(Memory);
    };
    let back = turn(alloc, log, left.line)?;
    let half = chain(alloc, log, back, line)?;
    let whole = chain(alloc, log, half, right.line)?;
    Ok(Join {
        left: left.expr,
        right: right.expr,
        line: whole,
    })
}

/// A join of two classes by a line that equates a tree of the one with one of the other.
pub fn join_in<L: Label + Drop, S: Steps<L>>(
    alloc: Global,
    log: &mut Log<L, S>,
    exprs: &[Expr<L>],
    index: &IndexMap<Term<L>, usize>,
    known: &mut Vec<Option<Known>>,
    joins: &mut Vec<Join>,
    a: usize,
    b: usize,
    line: usize,
) -> Result<(), Memory>
    requires kept { IsMemo log.old.terms log.old.lines exprs.now known.old.items index.now.entries joins.old.items }
    ensures grew { OnOk result (Grew log.old log.new) }
    ensures kept { OnOk result (IsMemo log.new.terms log.new.lines exprs.now known.new.items index.now.entries joins.new.items) }
    ensures joined { OnOk result (IsJoinOf log.new.lines exprs.now joins.old.items joins.new.items a b) }
{
    if line >= log.count() {
        return Err(Memory);
    }
    let at = *log.line(line);
    learn(alloc, log, exprs, index, known, at.left)?;
    learn(alloc, log, exprs, index, known, at.right)?;
    let seen = known.as_slice();
    if is_in(exprs, seen, at.left, a) {
        if is_in(exprs, seen, at.right, b) {
            let join = between_known(alloc, log, exprs, seen, at.left, at.right, line)?;
            joins.push(join)?;
            return Ok(());
        }
    }
    Err(Memory)
}
