// What a left side matches, in anything that has a root and inputs.
ghost use Rattle.std.specs.Prelude.{◌≡◌, ◌<◌, map, length, Some, None, option_map, slice_get, if◌then◌else◌, IfOk};
ghost use Rattle.pr_value.specs.Trees.{trees_of};
ghost use Rattle.rule_runs.specs.Matching as spec;
ghost use Rattle.rule_runs.specs.Matching.{Rooted, and_match, is_number};
ghost use Rattle.rule_runs.specs.SeenMatches.{seen_matched};
ghost use Rattle.rule_runs.specs.SeenSides.{seen_side};

use crate::sides::Side;
use crate::slots::Slots;
use descriptor_types::Desc;
use pr_value::Memory;
use std::alloc::Global;

/// Things that have roots over inputs: trees, or numbers that stand for trees.
pub trait Roots<A: Copy> {
    /// What the definitions see of such a thing.
    ghost Thing: { Type 0 };

    ghost seen: { A → Thing };

    ghost roots: { Self → Rooted Thing };

    /// Whether the operator of that number stands at the root.
    fn is_operator(&self, a: A, op: usize) -> bool
        ensures { result ≡ is_number ((roots self.now).op (seen a)) op };

    /// The descriptor of the root, whole.
    fn whole(&self, alloc: Global, a: A) -> Result<Desc, Memory>
        ensures { IfOk result (λ d. d ≡ (roots self.now).whole (seen a)) };

    /// What is seen of the root where a stream stands for the thing.
    fn view(&self, alloc: Global, a: A) -> Result<Desc, Memory>
        ensures { IfOk result (λ d. d ≡ (roots self.now).view (seen a)) };

    /// How many inputs the root has.
    fn count(&self, a: A) -> usize
        ensures { result ≡ length ((roots self.now).inputs (seen a)) };

    /// The input at a place, from 0.
    fn input(&self, a: A, place: usize) -> A
        requires { place < length ((roots self.now).inputs (seen a)) }
        ensures { slice_get ((roots self.now).inputs (seen a)) place ≡ Some (seen result) };
}

/// What a rule sees, and what its streams stand for, in the order of the text.
#[derive(Drop)]
pub struct Matched<A> {
    pub slots: Slots,
    pub streams: Vec<A>,
}

#[cycle(find)]
fn find<A: Copy, R: Roots<A>>(
    alloc: Global,
    roots: &R,
    side: &Side,
    a: A,
    out: &mut Matched<A>,
) -> Result<bool, Memory>
    ensures { IfOk result (λ found. option_map (and_match (seen_matched R.seen out.old))
        (spec.matched (R.roots roots.now) (seen_side side.now) (R.seen a))
        ≡ (if found then Some (seen_matched R.seen out.new) else None)) }
{
    match side {
        Side::Operator { op, inputs } => {
            if !roots.is_operator(a, *op) {
                return Ok(false);
            }
            let whole = roots.whole(alloc, a)?;
            out.slots.nodes.push(whole)?;
            find_all(alloc, roots, inputs.as_slice(), a, out)
        }
        Side::Stream { .. } => {
            let view = roots.view(alloc, a)?;
            out.slots.streams.push(view)?;
            out.streams.push(a)?;
            Ok(true)
        }
    }
}

#[cycle(find)]
fn find_all<A: Copy, R: Roots<A>>(
    alloc: Global,
    roots: &R,
    sides: &[Side],
    a: A,
    out: &mut Matched<A>,
) -> Result<bool, Memory>
    ensures { IfOk result (λ found. option_map (and_match (seen_matched R.seen out.old))
        (spec.all_matched (R.roots roots.now) (trees_of (map seen_side sides.now))
        ((R.roots roots.now).inputs (R.seen a)))
        ≡ (if found then Some (seen_matched R.seen out.new) else None)) }
{
    if sides.len() != roots.count(a) {
        return Ok(false);
    }
    for (place, side) in sides.iter().enumerate() {
        if !find(alloc, roots, side, roots.input(a, place), out)? {
            return Ok(false);
        }
    }
    Ok(true)
}

/// What the side matches in the thing, or none where it does not match: its operators stand for the
/// same operators over as many inputs, and its streams for anything.
pub fn find_match<A: Copy, R: Roots<A>>(
    alloc: Global,
    roots: &R,
    side: &Side,
    a: A,
) -> Result<Option<Matched<A>>, Memory>
    ensures { IfOk result (λ o. option_map (seen_matched R.seen) o
        ≡ spec.matched (R.roots roots.now) (seen_side side.now) (R.seen a)) }
{
    let mut matched = Matched {
        slots: Slots::new(alloc),
        streams: Vec::new(alloc),
    };
    if find(alloc, roots, side, a, &mut matched)? {
        Ok(Some(matched))
    } else {
        Ok(None)
    }
}
