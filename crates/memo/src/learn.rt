ghost use Rattle.std.specs.Prelude.{◌≡◌, ◌<◌, ◌+◌, ◌*◌, Some, All, length, slice_get, IfOk, OnOk, IfSome, true, false, None};
ghost use Rattle.std.specs.List.{AllZip};
ghost use Rattle.derivation.specs.declared.terms.Term.{Term};
ghost use Rattle.memo.specs.Grew.{Grew};
ghost use Rattle.memo.specs.Forest.{HasLine, IsForest, IsKnownIn, IsKnownOf};
ghost use Rattle.memo.specs.Kept.{Indexes};
ghost use Rattle.memo.specs.Learn.{IsKnown, IsNotedAt, AreKnownIn, AreHomed, IsKeyFor, FitsAt};
ghost use Rattle.memo.specs.Reach.{AreNear};
ghost use Rattle.memo.specs.declared.expr.Expr.{Expr};

use crate::expr::{Expr, Known};
use crate::homes::{expr_at, expr_get, known_at};
use crate::index::find_key;
use crate::lines::turn;
use crate::reach::{across, inputs_of, reach};
use derivation::{Label, Log, Numbers, Steps, Term};
use indexmap::IndexMap;
use pr_value::Memory;
use std::alloc::Global;

/// Notes what is known of a term, with room for it.
pub fn note_known(known: &mut Vec<Option<Known>>, n: usize, found: Known) -> Result<(), Memory>
    ensures { OnOk result (IsNotedAt known.old.items known.new.items n found) }
{
    while known.len() <= n {
        known.push(None)?;
    }
    known[n] = Some(found);
    Ok(())
}

/// The class of a known term.
pub fn class_known<L>(exprs: &[Expr<L>], known: &[Option<Known>], n: usize) -> Option<usize>
    requires { AreHomed exprs.now }
    ensures { IfSome result (IsKnownIn exprs.now known.now n) }
{
    match known_at(known, n) {
        Some(k) => match expr_at(exprs, k.expr) {
            Some(e) => Some(e.class),
            None => None,
        },
        None => None,
    }
}

/// The classes of known terms.
pub fn classes_known<L>(
    alloc: Global,
    exprs: &[Expr<L>],
    known: &[Option<Known>],
    terms: &[usize],
) -> Result<Vec<usize>, Memory>
    requires { AreHomed exprs.now }
    ensures { IfOk result (λ cs. AreKnownIn exprs.now known.now terms.now cs.items) }
{
    let mut out = Vec::new(alloc);
    for n in terms {
        match class_known(exprs, known, *n) {
            Some(class) => out.push(class)?,
            None => return Err(Memory),
        }
    }
    Ok(out)
}

/// Whether a term is known.
pub fn is_known(known: &[Option<Known>], n: usize) -> bool
    ensures yes { result ≡ true → IsKnown known.now n }
    ensures no { result ≡ false → IsKnownOf known.now n None }
{
    match known_at(known, n) {
        Some(_) => true,
        None => false,
    }
}

/// The label of a term over the classes that its inputs are known in.
fn key_over<L: Label + Drop, S: Steps<L>>(
    alloc: Global,
    log: &Log<L, S>,
    exprs: &[Expr<L>],
    known: &[Option<Known>],
    n: usize,
) -> Result<Term<L>, Memory>
    requires homed { AreHomed exprs.now }
    requires there { n < length log.now.terms }
    ensures { IfOk result (IsKeyFor log.now.terms exprs.now known.now n) }
{
    let inputs = inputs_of(alloc, log, n)?;
    let classes = classes_known(alloc, exprs, known, inputs.as_slice())?;
    let label = log.terms().label(n).copy(alloc)?;
    Ok(Term {
        label,
        inputs: Numbers::from_vec(classes),
    })
}

/// Makes a term known as one of an expression that it fits.
fn learn_as<L: Label + Drop, S: Steps<L>>(
    alloc: Global,
    log: &mut Log<L, S>,
    exprs: &[Expr<L>],
    known: &mut Vec<Option<Known>>,
    n: usize,
    i: usize,
) -> Result<(), Memory>
    requires forest { IsForest log.old.terms log.old.lines exprs.now known.old.items }
    requires there { i < length exprs.now }
    requires none { IsKnownOf known.old.items n None }
    requires fits { FitsAt log.old.terms exprs.now known.old.items n i }
    ensures grew { OnOk result (Grew log.old log.new) }
    ensures forest { OnOk result (IsForest log.new.terms log.new.lines exprs.now known.new.items) }
    ensures known { OnOk result (IsKnown known.new.items n) }
{
    let e = expr_get(exprs, i);
    let path = reach(alloc, log, exprs, known.as_slice(), e.line, e.tree, n)?;
    let line = turn(alloc, log, path)?;
    note_known(known, n, Known { expr: i, line })?;
    Ok(())
}

/// Makes a term known whose inputs are known.
fn learn_over<L: Label + Drop, S: Steps<L>>(
    alloc: Global,
    log: &mut Log<L, S>,
    exprs: &[Expr<L>],
    index: &IndexMap<Term<L>, usize>,
    known: &mut Vec<Option<Known>>,
    n: usize,
) -> Result<(), Memory>
    requires forest { IsForest log.old.terms log.old.lines exprs.now known.old.items }
    requires indexed { Indexes index.now.entries exprs.now (length exprs.now) }
    requires there { n < length log.old.terms }
    ensures grew { OnOk result (Grew log.old log.new) }
    ensures forest { OnOk result (IsForest log.new.terms log.new.lines exprs.now known.new.items) }
    ensures known { OnOk result (IsKnown known.new.items n) }
{
    if is_known(known.as_slice(), n) {
        return Ok(());
    }
    let key = key_over(alloc, log, exprs, known.as_slice(), n)?;
    match find_key(index, &key) {
        None => Err(Memory),
        Some(i) => {
            learn_as(alloc, log, exprs, known, n, i)?;
            Ok(())
        }
    }
}

/// Makes a term known, where it is a tree of a class.
#[cycle(learn)]
pub fn learn<L: Label + Drop, S: Steps<L>>(
    alloc: Global,
    log: &mut Log<L, S>,
    exprs: &[Expr<L>],
    index: &IndexMap<Term<L>, usize>,
    known: &mut Vec<Option<Known>>,
    n: usize,
) -> Result<(), Memory>
    requires forest { IsForest log.old.terms log.old.lines exprs.now known.old.items }
    requires indexed { Indexes index.now.entries exprs.now (length exprs.now) }
    ensures grew { OnOk result (Grew log.old log.new) }
    ensures forest { OnOk result (IsForest log.new.terms log.new.lines exprs.now known.new.items) }
    ensures known { OnOk result (IsKnown known.new.items n) }
{
    if is_known(known.as_slice(), n) {
        return Ok(());
    }
    if n >= log.terms().count() {
        return Err(Memory);
    }
    let inputs = inputs_of(alloc, log, n)?;
    learn_all(alloc, log, exprs, index, known, n, inputs.as_slice())?;
    learn_over(alloc, log, exprs, index, known, n)?;
    Ok(())
}

/// Makes terms known that are below a number.
#[cycle(learn)]
pub fn learn_all<L: Label + Drop, S: Steps<L>>(
    alloc: Global,
    log: &mut Log<L, S>,
    exprs: &[Expr<L>],
    index: &IndexMap<Term<L>, usize>,
    known: &mut Vec<Option<Known>>,
    below: usize,
    terms: &[usize],
) -> Result<(), Memory>
    requires forest { IsForest log.old.terms log.old.lines exprs.now known.old.items }
    requires indexed { Indexes index.now.entries exprs.now (length exprs.now) }
    ensures grew { OnOk result (Grew log.old log.new) }
    ensures forest { OnOk result (IsForest log.new.terms log.new.lines exprs.now known.new.items) }
{
    for n in terms {
        if *n >= below {
            return Err(Memory);
        }
        learn(alloc, log, exprs, index, known, *n)?;
    }
    Ok(())
}

/// Whether two terms are known in one class.
fn are_near<L>(exprs: &[Expr<L>], known: &[Option<Known>], a: usize, b: usize) -> bool
    requires { AreHomed exprs.now }
    ensures { result ≡ true → AreNear exprs.now known.now a b }
{
    match class_known(exprs, known, a) {
        Some(c) => match class_known(exprs, known, b) {
            Some(d) => c == d,
            None => false,
        },
        None => false,
    }
}

/// The line `a = b` of two terms of one class.
pub fn equate_in<L: Label + Drop, S: Steps<L>>(
    alloc: Global,
    log: &mut Log<L, S>,
    exprs: &[Expr<L>],
    index: &IndexMap<Term<L>, usize>,
    known: &mut Vec<Option<Known>>,
    a: usize,
    b: usize,
) -> Result<usize, Memory>
    requires forest { IsForest log.old.terms log.old.lines exprs.now known.old.items }
    requires indexed { Indexes index.now.entries exprs.now (length exprs.now) }
    ensures grew { OnOk result (Grew log.old log.new) }
    ensures forest { OnOk result (IsForest log.new.terms log.new.lines exprs.now known.new.items) }
    ensures line { IfOk result (λ i. HasLine log.new.lines i a b) }
{
    learn(alloc, log, exprs, index, known, a)?;
    learn(alloc, log, exprs, index, known, b)?;
    let seen = known.as_slice();
    if are_near(exprs, seen, a, b) {
        let line = across(alloc, log, exprs, seen, a, b)?;
        return Ok(line);
    }
    Err(Memory)
}
