ghost use Rattle.std.specs.Prelude.{◌≡◌, ℕ, ◌<◌, length, slice_get, Some, None, max, take, IfOk, MatchOption};
ghost use Rattle.derivation.specs.Log.{AreThere, AreShallow};
ghost use Rattle.derivation.specs.Made.{Made, NotMade, IsInput, PartOf, PartMade, PartNotMade, RuleMade, RuleNotMade, TurnMade, ChainMade, ChainNotMade, InsideMade, InsideNotMade};
ghost use Rattle.derivation.specs.Table.{term};

use crate::label::Label;
use crate::reason::{Line, Reason};
use crate::steps::Steps;
use crate::terms::Terms;
use pr_value::Memory;
use std::alloc::Global;

fn deeper(a: usize, b: usize) -> usize
    ensures { result ≡ max a b }
{
    if a < b { b } else { a }
}

fn line_at(lines: &[Line], i: usize) -> Option<Line>
    ensures { result ≡ slice_get lines.now i }
{
    lines.get(i).copied()
}

fn place_of(inputs: &[usize], at: usize) -> Option<usize>
    ensures { result ≡ slice_get inputs.now at }
{
    inputs.get(at).copied()
}

/// The input of a term at a place.
fn input_at<L: Label + Drop>(terms: &Terms<L>, n: usize, at: usize) -> Option<usize>
    ensures { MatchOption result ((u : ℕ) → IsInput terms.now n at u → ⊥) (λ u. IsInput terms.now n at u) }
{
    match terms.at(n) {
        None => None,
        Some(term) => place_of(term.inputs.as_slice(), at),
    }
}

/// The term with another input at a place.
fn with_input<L: Label + Drop>(
    alloc: Global,
    terms: &mut Terms<L>,
    n: usize,
    at: usize,
    by: usize,
) -> Result<usize, Memory>
    requires input { (u : ℕ) × IsInput terms.old n at u }
    requires by { by < length terms.old }
    ensures kept { take (length terms.old) terms.new ≡ terms.old }
    ensures made { IfOk result (λ u. PartOf terms.new n at by u) }
{
    terms.sound();
    let (label, mut inputs) = parts(alloc, terms, n)?;
    inputs[at] = by;
    let made = terms.add(alloc, label, inputs.as_slice())?;
    Ok(made)
}

/// The label and the inputs of a term.
fn parts<L: Label + Drop>(
    alloc: Global,
    terms: &Terms<L>,
    n: usize,
) -> Result<(L, Vec<usize>), Memory>
    requires { n < length terms.now }
    ensures { IfOk result (λ p. slice_get terms.now n ≡ Some (term p.0 p.1.items)) }
{
    let term = terms.term(n);
    let label = term.label.copy(alloc)?;
    let inputs = term.inputs.as_slice().to_vec(alloc)?;
    Ok((label, inputs))
}

/// The input of a line's right tree, equated to itself.
fn part_line<L: Label + Drop>(
    terms: &Terms<L>,
    lines: &[Line],
    of: usize,
    at: usize,
) -> Option<Line>
    ensures { MatchOption result (PartNotMade terms.now lines.now of at) (λ l. (l.why ≡ Reason.Part of at) × PartMade terms.now lines.now of at l) }
{
    let Some(p) = line_at(lines, of) else {
        return None;
    };
    let Some(u) = input_at(terms, p.right, at) else {
        return None;
    };
    Some(Line {
        left: u,
        right: u,
        why: Reason::Part { of, at },
        depth: p.depth,
    })
}

fn turn_line(lines: &[Line], of: usize) -> Option<Line>
    ensures { MatchOption result (slice_get lines.now of ≡ None) (λ l. (l.why ≡ Reason.Turn of) × TurnMade lines.now of l) }
{
    let p = line_at(lines, of)?;
    Some(Line {
        left: p.right,
        right: p.left,
        why: Reason::Turn { of },
        depth: p.depth,
    })
}

fn chain_line(lines: &[Line], first: usize, second: usize) -> Option<Line>
    ensures { MatchOption result (ChainNotMade lines.now first second) (λ l. (l.why ≡ Reason.Chain first second) × ChainMade lines.now first second l) }
{
    let p = line_at(lines, first)?;
    let r = line_at(lines, second)?;
    if p.right != r.left {
        return None;
    }
    Some(Line {
        left: p.left,
        right: r.right,
        why: Reason::Chain { first, second },
        depth: deeper(p.depth, r.depth),
    })
}

/// What a rule makes of a line's right tree.
fn rule_line<L: Label + Drop, S: Steps<L>>(
    alloc: Global,
    terms: &mut Terms<L>,
    steps: &S,
    lines: &[Line],
    of: usize,
    rule: usize,
) -> Result<Option<Line>, Memory>
    requires there { AreThere terms.old lines.now }
    requires shallow { AreShallow lines.now }
    ensures kept { take (length terms.old) terms.new ≡ terms.old }
    ensures made { IfOk result (λ m. MatchOption m (RuleNotMade terms.old lines.now (S.stepped steps.now) of rule × (terms.new ≡ terms.old)) (λ l. (l.why ≡ Reason.Rule of rule) × RuleMade terms.new lines.now (S.stepped steps.now) of rule l)) }
{
    let Some(p) = line_at(lines, of) else {
        return Ok(None);
    };
    let made = steps.step(alloc, rule, terms, p.right)?;
    match made {
        None => Ok(None),
        Some(u) => Ok(Some(Line {
            left: p.right,
            right: u,
            why: Reason::Rule { of, rule },
            depth: p.depth + 1,
        })),
    }
}

/// A line's right tree with an input replaced by what another line equates it to.
fn inside_line<L: Label + Drop>(
    alloc: Global,
    terms: &mut Terms<L>,
    lines: &[Line],
    of: usize,
    at: usize,
    by: usize,
) -> Result<Option<Line>, Memory>
    requires there { AreThere terms.old lines.now }
    ensures kept { take (length terms.old) terms.new ≡ terms.old }
    ensures made { IfOk result (λ m. MatchOption m (InsideNotMade terms.old lines.now of at by × (terms.new ≡ terms.old)) (λ l. (l.why ≡ Reason.Inside of at by) × InsideMade terms.new lines.now of at by l)) }
{
    let Some(p) = line_at(lines, of) else {
        return Ok(None);
    };
    let Some(r) = line_at(lines, by) else {
        return Ok(None);
    };
    let Some(u) = input_at(terms, p.right, at) else {
        return Ok(None);
    };
    if u != r.left {
        return Ok(None);
    }
    let v = with_input(alloc, terms, p.right, at, r.right)?;
    Ok(Some(Line {
        left: p.right,
        right: v,
        why: Reason::Inside { of, at, by },
        depth: deeper(p.depth, r.depth),
    }))
}

/// The line that a reason justifies, or none.
pub fn line_of<L: Label + Drop, S: Steps<L>>(
    alloc: Global,
    terms: &mut Terms<L>,
    steps: &S,
    query: usize,
    lines: &[Line],
    why: Reason,
) -> Result<Option<Line>, Memory>
    requires there { AreThere terms.old lines.now }
    requires shallow { AreShallow lines.now }
    ensures kept { take (length terms.old) terms.new ≡ terms.old }
    ensures made { IfOk result (λ m. MatchOption m (NotMade (S.stepped steps.now) terms.old query lines.now why × (terms.new ≡ terms.old)) (λ l. (l.why ≡ why) × Made (S.stepped steps.now) terms.new query lines.now why l)) }
{
    match why {
        Reason::Query => Ok(Some(Line {
            left: query,
            right: query,
            why,
            depth: 0,
        })),
        Reason::Part { of, at } => Ok(part_line(terms, lines, of, at)),
        Reason::Rule { of, rule } => rule_line(alloc, terms, steps, lines, of, rule),
        Reason::Turn { of } => Ok(turn_line(lines, of)),
        Reason::Chain { first, second } => Ok(chain_line(lines, first, second)),
        Reason::Inside { of, at, by } => inside_line(alloc, terms, lines, of, at, by),
    }
}
