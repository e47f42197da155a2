ghost use Rattle.std.specs.Prelude.{◌≡◌, ◌↔◌, ◌<◌, ℕ, [], Some, length, slice_get, IfOk, OnOk, suc};
ghost use Rattle.derivation.specs.Made.{IsInput};
ghost use Rattle.derivation.specs.declared.terms.Term.{Term};
ghost use Rattle.memo.specs.Forest.{HasLine};
ghost use Rattle.memo.specs.Grew.{Grew};
ghost use Rattle.memo.specs.Kept.{IsMemo};
ghost use Rattle.memo.specs.Start.{IsNode, IsFresh, IsOwned, AreOwnLines, IsOwnedToo, OwnsInputs, OwnsFirst, IsOwning, IsStarted, IsNodeAdded, Parts};

use crate::adding::add_in;
use crate::expr::{Expr, Known};
use crate::learn::classes_known;
use crate::reach::inputs_of;
use derivation::{Label, Log, Reason, Steps, Term};
use indexmap::IndexMap;
use pr_value::Memory;
use std::alloc::Global;

/// The line of an input of a line's right term.
fn part<L: Label + Drop, S: Steps<L>>(
    alloc: Global,
    log: &mut Log<L, S>,
    of: usize,
    at: usize,
) -> Result<usize, Memory>
    ensures grew { Grew log.old log.new }
    ensures line { IfOk result (Parts log.old log.new of at) }
{
    match log.push(alloc, Reason::Part { of, at }) {
        Ok(i) => Ok(i),
        Err(_) => Err(Memory),
    }
}

/// The line `query = query`.
fn first_line<L: Label + Drop, S: Steps<L>>(log: &Log<L, S>) -> Result<usize, Memory>
    ensures { IfOk result (λ i. HasLine log.now.lines i log.now.query log.now.query) }
{
    if log.count() == 0 {
        return Err(Memory);
    }
    let line = *log.line(0);
    let query = log.query();
    if line.left != query {
        return Err(Memory);
    }
    if line.right != query {
        return Err(Memory);
    }
    Ok(0)
}

/// No lines below a number, and one at it.
fn row(alloc: Global, query: usize, line: usize) -> Result<Vec<Option<usize>>, Memory>
    ensures long { IfOk result (λ own. length own.items ≡ suc query) }
    ensures last { IfOk result (λ own. slice_get own.items query ≡ Some (Some line)) }
    ensures only { IfOk result (λ own. (n i : ℕ) → slice_get own.items n ≡ Some (Some i) → (n ≡ query) × (i ≡ line)) }
{
    let mut own = Vec::new(alloc);
    for _ in 0..query {
        own.push(None)?;
    }
    own.push(Some(line))?;
    Ok(own)
}

fn own_at(own: &[Option<usize>], n: usize) -> Option<usize>
    requires { n < length own.now }
    ensures { slice_get own.now n ≡ Some result }
{
    own[n]
}

/// Gives an input of a term a line, where it has none.
fn own_one<L: Label + Drop, S: Steps<L>>(
    alloc: Global,
    log: &mut Log<L, S>,
    own: &mut [Option<usize>],
    n: usize,
    of: usize,
    at: usize,
    m: usize,
) -> Result<(), Memory>
    requires line { HasLine log.old.lines of n n }
    requires input { IsInput log.old.terms n at m }
    requires lines { AreOwnLines log.old.lines own.old }
    requires there { m < length own.old }
    ensures grew { OnOk result (Grew log.old log.new) }
    ensures lines { OnOk result (AreOwnLines log.new.lines own.new) }
    ensures owned { OnOk result (IsOwnedToo own.old own.new m) }
{
    match own_at(own, m) {
        Some(_) => Ok(()),
        None => {
            let line = part(alloc, log, of, at)?;
            own[m] = Some(line);
            Ok(())
        }
    }
}

/// Gives each input of a term a line.
fn own_all<L: Label + Drop, S: Steps<L>>(
    alloc: Global,
    log: &mut Log<L, S>,
    own: &mut [Option<usize>],
    n: usize,
    of: usize,
    inputs: &[usize],
) -> Result<(), Memory>
    requires line { HasLine log.old.lines of n n }
    requires inputs { (t : Term L) × (slice_get log.old.terms n ≡ Some t) × (t.inputs ≡ inputs.now) }
    requires lines { AreOwnLines log.old.lines own.old }
    ensures grew { OnOk result (Grew log.old log.new) }
    ensures lines { OnOk result (AreOwnLines log.new.lines own.new) }
    ensures owned { OnOk result (OwnsFirst own.old own.new inputs.now (length inputs.now)) }
{
    for at in 0..inputs.len() {
        let m = inputs[at];
        if m >= own.len() {
            return Err(Memory);
        }
        own_one(alloc, log, own, n, of, at, m)?;
    }
    Ok(())
}

/// Gives each input of a term a line, where the term has one.
fn own_inputs<L: Label + Drop, S: Steps<L>>(
    alloc: Global,
    log: &mut Log<L, S>,
    own: &mut [Option<usize>],
    n: usize,
) -> Result<(), Memory>
    requires there { n < length log.old.terms }
    requires place { n < length own.old }
    requires lines { AreOwnLines log.old.lines own.old }
    ensures grew { OnOk result (Grew log.old log.new) }
    ensures lines { OnOk result (AreOwnLines log.new.lines own.new) }
    ensures owned { OnOk result (OwnsInputs log.old.terms own.old own.new n) }
{
    match own_at(own, n) {
        None => Ok(()),
        Some(of) => {
            let inputs = inputs_of(alloc, log, n)?;
            own_all(alloc, log, own, n, of, inputs.as_slice())?;
            Ok(())
        }
    }
}

/// Gives each node of the query a line, from the query down.
fn own_nodes<L: Label + Drop, S: Steps<L>>(
    alloc: Global,
    log: &mut Log<L, S>,
    own: &mut [Option<usize>],
) -> Result<(), Memory>
    requires there { log.old.query < length log.old.terms }
    requires lines { AreOwnLines log.old.lines own.old }
    requires owning { IsOwning log.old.terms log.old.query own.old 0 }
    ensures grew { OnOk result (Grew log.old log.new) }
    ensures lines { OnOk result (AreOwnLines log.new.lines own.new) }
    ensures owning { OnOk result (IsOwning log.old.terms log.old.query own.new (length own.new)) }
{
    log.terms().sound();
    for k in 0..own.len() {
        let n = own.len() - 1 - k;
        own_inputs(alloc, log, own, n)?;
    }
    Ok(())
}

/// For each node of the query, the line `node = node`.
fn own_lines<L: Label + Drop, S: Steps<L>>(
    alloc: Global,
    log: &mut Log<L, S>,
) -> Result<Vec<Option<usize>>, Memory>
    ensures grew { OnOk result (Grew log.old log.new) }
    ensures lines { IfOk result (λ own. AreOwnLines log.new.lines own.items) }
    ensures nodes { IfOk result (λ own. (n : ℕ) → IsOwned own.items n ↔ IsNode log.old.terms log.old.query n) }
{
    let query = log.query();
    if query >= log.terms().count() {
        return Err(Memory);
    }
    let line = first_line(log)?;
    let mut own = row(alloc, query, line)?;
    own_nodes(alloc, log, own.as_mut_slice())?;
    Ok(own)
}

/// Adds the class of a node, by the line `node = node`.
fn add_node<L: Label + Drop, S: Steps<L>>(
    alloc: Global,
    log: &mut Log<L, S>,
    exprs: &mut Vec<Expr<L>>,
    index: &mut IndexMap<Term<L>, usize>,
    known: &mut Vec<Option<Known>>,
    n: usize,
    line: usize,
) -> Result<(), Memory>
    requires kept { IsMemo log.old.terms log.old.lines exprs.old.items known.old.items index.old.entries [] }
    requires there { n < length log.old.terms }
    ensures grew { OnOk result (Grew log.old log.new) }
    ensures kept { OnOk result (IsMemo log.new.terms log.new.lines exprs.new.items known.new.items index.new.entries []) }
    ensures added { OnOk result (IsNodeAdded exprs.old.items exprs.new.items line) }
{
    let inputs = inputs_of(alloc, log, n)?;
    let classes = classes_known(alloc, exprs.as_slice(), known.as_slice(), inputs.as_slice())?;
    let label = log.terms().label(n).copy(alloc)?;
    let class = exprs.len();
    let added = add_in(
        alloc,
        log,
        exprs,
        index,
        known,
        label,
        classes.as_slice(),
        line,
    )?;
    if added == class {
        return Ok(());
    }
    Err(Memory)
}

/// Adds the class of a term that has a line.
fn add_owned<L: Label + Drop, S: Steps<L>>(
    alloc: Global,
    log: &mut Log<L, S>,
    exprs: &mut Vec<Expr<L>>,
    index: &mut IndexMap<Term<L>, usize>,
    known: &mut Vec<Option<Known>>,
    own: &[Option<usize>],
    n: usize,
) -> Result<(), Memory>
    requires kept { IsMemo log.old.terms log.old.lines exprs.old.items known.old.items index.old.entries [] }
    requires lines { AreOwnLines log.old.lines own.now }
    requires there { n < length own.now }
    requires started { IsStarted own.now exprs.old.items n }
    ensures grew { OnOk result (Grew log.old log.new) }
    ensures kept { OnOk result (IsMemo log.new.terms log.new.lines exprs.new.items known.new.items index.new.entries []) }
    ensures started { OnOk result (IsStarted own.now exprs.new.items (suc n)) }
{
    match own_at(own, n) {
        None => Ok(()),
        Some(line) => {
            if n >= log.terms().count() {
                return Err(Memory);
            }
            add_node(alloc, log, exprs, index, known, n, line)?;
            Ok(())
        }
    }
}

/// Adds the classes of the terms that have lines, in their order.
fn add_nodes<L: Label + Drop, S: Steps<L>>(
    alloc: Global,
    log: &mut Log<L, S>,
    exprs: &mut Vec<Expr<L>>,
    index: &mut IndexMap<Term<L>, usize>,
    known: &mut Vec<Option<Known>>,
    own: &[Option<usize>],
) -> Result<(), Memory>
    requires kept { IsMemo log.old.terms log.old.lines exprs.old.items known.old.items index.old.entries [] }
    requires lines { AreOwnLines log.old.lines own.now }
    requires none { exprs.old.items ≡ [] }
    ensures grew { OnOk result (Grew log.old log.new) }
    ensures kept { OnOk result (IsMemo log.new.terms log.new.lines exprs.new.items known.new.items index.new.entries []) }
    ensures started { OnOk result (IsStarted own.now exprs.new.items (length own.now)) }
{
    for n in 0..own.len() {
        add_owned(alloc, log, exprs, index, known, own, n)?;
    }
    Ok(())
}

/// Adds a class for each node of the query.
pub fn start<L: Label + Drop, S: Steps<L>>(
    alloc: Global,
    log: &mut Log<L, S>,
    exprs: &mut Vec<Expr<L>>,
    index: &mut IndexMap<Term<L>, usize>,
    known: &mut Vec<Option<Known>>,
) -> Result<(), Memory>
    requires exprs { exprs.old.items ≡ [] }
    requires index { index.old.entries ≡ [] }
    requires known { known.old.items ≡ [] }
    ensures grew { OnOk result (Grew log.old log.new) }
    ensures kept { OnOk result (IsMemo log.new.terms log.new.lines exprs.new.items known.new.items index.new.entries []) }
    ensures fresh { OnOk result (IsFresh log.old.terms log.old.query log.new.lines exprs.new.items) }
{
    let own = own_lines(alloc, log)?;
    add_nodes(alloc, log, exprs, index, known, own.as_slice())?;
    Ok(())
}
