ghost use Rattle.std.specs.Prelude.{◌≡◌, ◌≢◌, ◌<◌, [], ◌∷◌, ◌++◌, length, slice_get, Some, All, IfOk, OnOk, OnErr, Err, take};
ghost use Rattle.derivation.specs.Log.{LogValue, IsLog, Pushes, AddsEquation, JustifiesNone, AreJoined, query_line};
ghost use Rattle.derivation.specs.Made.{NotMade};
ghost use Rattle.derivation.specs.Slices.{IsSlice};

use crate::label::Label;
use crate::lines::line_of;
use crate::reason::{Line, PushError, Reason};
use crate::slice::slice_of;
use crate::steps::Steps;
use crate::terms::Terms;
use pr_value::{Items, Memory};
use std::alloc::Global;
use std::marker::Model;

/// Terms, steps and lines, each line justified by earlier ones.
#[derive(Drop)]
pub struct Log<L: Label, S: Steps<L>> {
    terms: Terms<L>,
    steps: S,
    query: usize,
    lines: Vec<Line>,
}

impl<L: Label, S: Steps<L>> Model for Log<L, S> {
    ghost use Rattle.derivation.specs.Log.{LogValue, IsLog};

    ghost Value = { LogValue L S };

    ghost view = { λ a. record { terms = a.terms; steps = a.steps; query = a.query; lines = a.lines.items } };

    ghost invariant = { λ a. IsLog (S.stepped a.steps) a.terms a.query a.lines.items };
}

/// Puts a line at the end.
fn append(lines: &mut Vec<Line>, line: Line) -> Result<usize, PushError>
    ensures ok { IfOk result (λ i. (i ≡ length lines.old.items) × (lines.new.items ≡ lines.old.items ++ line ∷ [])) }
    ensures err { OnErr result (lines.new.items ≡ lines.old.items) }
    ensures memory { result ≢ Err PushError.BadReason }
{
    let i = lines.len();
    match lines.push(line) {
        Ok(()) => Ok(i),
        Err(_) => Err(PushError::Memory),
    }
}

/// Adds the line that a reason justifies.
fn push_line<L: Label + Drop, S: Steps<L>>(
    alloc: Global,
    terms: &mut Terms<L>,
    steps: &S,
    query: usize,
    lines: &mut Vec<Line>,
    why: Reason,
) -> Result<usize, PushError>
    requires { IsLog (S.stepped steps.now) terms.old query lines.old.items }
    ensures log { IsLog (S.stepped steps.now) terms.new query lines.new.items }
    ensures kept { take (length terms.old) terms.new ≡ terms.old }
    ensures ok { IfOk result (λ i. (i ≡ length lines.old.items) × Pushes (S.stepped steps.now) terms.new query lines.old.items lines.new.items why) }
    ensures err { OnErr result (lines.new.items ≡ lines.old.items) }
    ensures bad { result ≡ Err PushError.BadReason → NotMade (S.stepped steps.now) terms.old query lines.old.items why × (terms.new ≡ terms.old) }
{
    match line_of(alloc, terms, steps, query, lines.as_slice(), why) {
        Err(_) => Err(PushError::Memory),
        Ok(None) => Err(PushError::BadReason),
        Ok(Some(line)) => append(lines, line),
    }
}

impl<L: Label + Drop, S: Steps<L>> Log<L, S> {
    /// The derivation of one line, `query = query`.
    pub fn new(alloc: Global, terms: Terms<L>, steps: S, query: usize) -> Result<Log<L, S>, Memory>
    where
        S: Drop,
        requires { query < length terms }
        ensures { IfOk result (λ l. (l.terms ≡ terms) × (l.steps ≡ steps) × (l.query ≡ query) × (l.lines ≡ query_line query ∷ [])) }
    {
        terms.sound();
        let mut lines = Vec::new(alloc);
        lines.push(Line {
            left: query,
            right: query,
            why: Reason::Query,
            depth: 0,
        })?;
        Ok(Log {
            terms,
            steps,
            query,
            lines,
        })
    }

    /// Adds the line that the reason justifies, and gives its number. After `BadReason` the log is
    /// as it was; after `Memory` it may have more terms, and no line.
    pub fn push(&mut self, alloc: Global, why: Reason) -> Result<usize, PushError>
        ensures same { (self.new.steps ≡ self.old.steps) × (self.new.query ≡ self.old.query) }
        ensures kept { take (length self.old.terms) self.new.terms ≡ self.old.terms }
        ensures there { IfOk result (λ i. i < length self.new.lines) }
        ensures ok { IfOk result (λ i. (i ≡ length self.old.lines) × Pushes (S.stepped self.old.steps) self.new.terms self.old.query self.old.lines self.new.lines why) }
        ensures justified { OnOk result (AddsEquation (S.stepped self.old.steps) self.old self.new why) }
        ensures err { OnErr result (self.new.lines ≡ self.old.lines) }
        ensures bad { result ≡ Err PushError.BadReason → JustifiesNone (S.stepped self.old.steps) self.old why × (self.new ≡ self.old) }
    {
        self.terms.sound();
        push_line(
            alloc,
            &mut self.terms,
            &self.steps,
            self.query,
            &mut self.lines,
            why,
        )
    }

    /// The lines are a derivation from the query, and the trees of a line are joined at its depth.
    pub fn sound(&self)
        ensures derivation { IsLog (S.stepped self.now.steps) self.now.terms self.now.query self.now.lines }
        ensures joined { AreJoined (S.stepped self.now.steps) self.now }
    {
        let _lines = &self.lines;
    }

    pub fn line(&self, i: usize) -> &Line
        requires { i < length self.now.lines }
        ensures { slice_get self.now.lines i ≡ Some result.now }
    {
        &self.lines[i]
    }

    pub fn terms(&self) -> &Terms<L>
        ensures { result.now ≡ self.now.terms }
    {
        &self.terms
    }

    pub fn query(&self) -> usize
        ensures { result ≡ self.now.query }
    {
        self.query
    }

    pub fn count(&self) -> usize
        ensures { result ≡ length self.now.lines }
    {
        self.lines.len()
    }

    /// The lines that the given ones rest on and these, renumbered in order.
    pub fn slice(&self, alloc: Global, given: &[usize]) -> Result<Items<Line>, Memory>
        requires { All (λ n. n < length self.now.lines) given.now }
        ensures { IfOk result (λ out. IsSlice self.now.lines given.now out) }
    {
        slice_of(alloc, self.lines.as_slice(), given)
    }
}
