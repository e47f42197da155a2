ghost use Rattle.std.specs.Prelude.{◌≡◌, ◌<◌, ◌++◌, ◌∷◌, [], ℕ, All, Bool, true, false, cond, Some, IfOk, OnOk, length, slice_get, slice_set, slice_index, slice_index_or};
ghost use Rattle.derivation.specs.Log.{AreBackward};
ghost use Rattle.derivation.specs.Marks.{marked, AreMarked, places_from, kept_lines};
ghost use Rattle.derivation.specs.Slices.{IsSlice, rests_on, renumbered, one_if};

use crate::reason::{Line, Reason};
use pr_value::{Items, Memory};
use std::alloc::Global;

/// Marks the lines that a reason names.
fn mark_under(marks: &mut [bool], why: Reason)
    requires { All (λ n. n < length marks.old) (rests_on why) }
    ensures { marks.new ≡ marked marks.old (rests_on why) }
{
    match why {
        Reason::Query => {}
        Reason::Part { of, at: _ } => marks[of] = true,
        Reason::Rule { of, rule: _ } => marks[of] = true,
        Reason::Turn { of } => marks[of] = true,
        Reason::Chain { first, second } => {
            marks[first] = true;
            marks[second] = true;
        }
        Reason::Inside { of, at: _, by } => {
            marks[of] = true;
            marks[by] = true;
        }
    }
}

/// Marks what a line rests on, where the line is marked.
fn mark_line(marks: &mut [bool], i: usize, why: Reason)
    requires there { i < length marks.old }
    requires names { All (λ n. n < length marks.old) (rests_on why) }
    ensures { marks.new ≡ cond (slice_index_or marks.old i false) (marked marks.old (rests_on why)) marks.old }
{
    if marks[i] {
        mark_under(marks, why);
    }
}

/// Marks the given lines.
fn mark_given(marks: &mut [bool], given: &[usize])
    requires { All (λ n. n < length marks.old) given.now }
    ensures { marks.new ≡ marked marks.old given.now }
{
    for n in given {
        marks[*n] = true;
    }
}

/// A row of n places without a mark.
fn unmarked(alloc: Global, n: usize) -> Result<Vec<bool>, Memory>
    ensures long { IfOk result (λ ms. length ms.items ≡ n) }
    ensures none { IfOk result (λ ms. (i : ℕ) (b : Bool) → slice_get ms.items i ≡ Some b → b ≡ false) }
{
    let mut marks = Vec::new(alloc);
    for _ in 0..n {
        marks.push(false)?;
    }
    Ok(marks)
}

/// Marks the lines that are needed: each line is looked at after all that may rest on it.
fn mark_needed(marks: &mut [bool], lines: &[Line], given: &[usize])
    requires backward { AreBackward lines.now }
    requires there { All (λ n. n < length lines.now) given.now }
    requires long { length marks.old ≡ length lines.now }
    requires none { (i : ℕ) (b : Bool) → slice_get marks.old i ≡ Some b → b ≡ false }
    ensures { AreMarked lines.now given.now marks.new }
{
    mark_given(marks, given);
    let mut i = lines.len();
    while i > 0 {
        i -= 1;
        mark_line(marks, i, lines[i].why);
    }
}

/// The marks of the lines that are needed.
fn marks_of(alloc: Global, lines: &[Line], given: &[usize]) -> Result<Vec<bool>, Memory>
    requires backward { AreBackward lines.now }
    requires there { All (λ n. n < length lines.now) given.now }
    ensures { IfOk result (λ ms. AreMarked lines.now given.now ms.items) }
{
    let mut marks = unmarked(alloc, lines.len())?;
    mark_needed(marks.as_mut_slice(), lines, given);
    Ok(marks)
}

/// How many marks stand before each place.
fn places_of(alloc: Global, marks: &[bool]) -> Result<Vec<usize>, Memory>
    ensures { IfOk result (λ ps. ps.items ≡ places_from 0 marks.now) }
{
    let mut places = Vec::new(alloc);
    let mut count = 0;
    for m in marks {
        places.push(count)?;
        count += one_for(*m);
    }
    Ok(places)
}

/// The reason by the places of its lines.
fn moved(places: &[usize], why: Reason) -> Reason
    requires { All (λ n. n < length places.now) (rests_on why) }
    ensures { result ≡ renumbered (slice_index places.now) why }
{
    match why {
        Reason::Query => Reason::Query,
        Reason::Part { of, at } => Reason::Part { of: places[of], at },
        Reason::Rule { of, rule } => Reason::Rule {
            of: places[of],
            rule,
        },
        Reason::Turn { of } => Reason::Turn { of: places[of] },
        Reason::Chain { first, second } => Reason::Chain {
            first: places[first],
            second: places[second],
        },
        Reason::Inside { of, at, by } => Reason::Inside {
            of: places[of],
            at,
            by: places[by],
        },
    }
}

/// Puts a line at the end, where it is marked.
fn keep(places: &[usize], mark: bool, line: &Line, out: &mut Vec<Line>) -> Result<(), Memory>
    requires { All (λ n. n < length places.now) (rests_on line.now.why) }
    ensures { OnOk result (out.new.items ≡ out.old.items ++ kept_lines places.now (mark ∷ []) (line.now ∷ [])) }
{
    if mark {
        out.push(Line {
            left: line.left,
            right: line.right,
            why: moved(places, line.why),
            depth: line.depth,
        })?;
    }
    Ok(())
}

/// The lines that are marked, renumbered.
fn kept_of(
    alloc: Global,
    places: &[usize],
    marks: &[bool],
    lines: &[Line],
) -> Result<Vec<Line>, Memory>
    requires backward { AreBackward lines.now }
    requires long { (length marks.now ≡ length lines.now) × (length places.now ≡ length lines.now) }
    ensures { IfOk result (λ out. out.items ≡ kept_lines places.now marks.now lines.now) }
{
    let mut out = Vec::new(alloc);
    for i in 0..lines.len() {
        keep(places, marks[i], &lines[i], &mut out)?;
    }
    Ok(out)
}

/// One for a mark.
fn one_for(mark: bool) -> usize
    ensures { result ≡ one_if mark }
{
    if mark { 1 } else { 0 }
}

/// Just the lines that the given ones rest on and these, renumbered in order.
pub fn slice_of(alloc: Global, lines: &[Line], given: &[usize]) -> Result<Items<Line>, Memory>
    requires backward { AreBackward lines.now }
    requires there { All (λ n. n < length lines.now) given.now }
    ensures { IfOk result (λ out. IsSlice lines.now given.now out) }
{
    let marks = marks_of(alloc, lines, given)?;
    let places = places_of(alloc, marks.as_slice())?;
    let kept = kept_of(alloc, places.as_slice(), marks.as_slice(), lines)?;
    Ok(Items::from_vec(kept))
}
