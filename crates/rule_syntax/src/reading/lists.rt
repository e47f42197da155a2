// The readers of lists, whatever their parts are.
ghost use Rattle.std.specs.Prelude.{◌≡◌, List, [], ◌∷◌, ◌++◌, length};
ghost use Rattle.rule_syntax.specs.Reading.{Gives, Reader, listed_at, filled_at, closed_at};
ghost use Rattle.rule_syntax.specs.ReadingParts.{section_at};

use crate::reading::stop::Stop;
use crate::reading::tokens::{after, mark, next_is};
use pr_value::{Items, Mark, Token};
use std::alloc::Global;

/// Parts of one kind that come in lists, how they are seen, and the reader of one.
pub trait Parts {
    type Part: Drop;

    ghost Seen: { Type 0 };

    ghost seen: { Self.Part → Seen };

    ghost all_seen: { List Self.Part → List Seen };

    ghost reads: { Reader Seen };

    fn read(alloc: Global, ts: &[Token]) -> Result<(Self::Part, &[Token]), Stop>
        ensures { Gives (λ x. (seen x.0, x.1.now)) result (reads ts.now) };

    ghost none: { all_seen [] ≡ [] };

    ghost one_more: { (xs : List Self.Part) (x : Self.Part) → all_seen (xs ++ x ∷ []) ≡ all_seen xs ++ seen x ∷ [] };
}

/// As many parts as there are that begin with the word.
pub fn section<'a, P: Parts>(
    alloc: Global,
    word: &[u8],
    ts: &'a [Token],
) -> Result<(Items<P::Part>, &'a [Token]), Stop>
    ensures { Gives (λ x. (P.all_seen x.0, x.1.now)) result (section_at word.now P.reads ts.now) }
{
    let mut out = Items::new(alloc);
    let mut rest = ts;
    let mut left = ts.len();
    while next_is(word, rest) {
        if left == 0 {
            return Err(Stop::Bad { left: rest.len() });
        }
        left -= 1;
        let (part, behind) = P::read(alloc, rest)?;
        out.push(part)?;
        rest = behind;
    }
    Ok((out, rest))
}

/// Any number of parts with commas between, up to the closing mark.
#[tactic(auto, unfolding(crate::specs::Reading::closed_at))]
pub fn closed<P: Parts>(
    alloc: Global,
    close: Mark,
    ts: &[Token],
) -> Result<(Items<P::Part>, &[Token]), Stop>
    ensures { Gives (λ x. (P.all_seen x.0, x.1.now)) result (closed_at P.reads close ts.now) }
{
    if let Some(rest) = after(close, ts) {
        return Ok((Items::new(alloc), rest));
    }
    filled::<P>(alloc, close, ts)
}

/// One part or more with commas between, up to the closing mark.
#[tactic(auto, unfolding(crate::specs::Reading::filled_at))]
pub fn filled<P: Parts>(
    alloc: Global,
    close: Mark,
    ts: &[Token],
) -> Result<(Items<P::Part>, &[Token]), Stop>
    ensures { Gives (λ x. (P.all_seen x.0, x.1.now)) result (filled_at P.reads close ts.now) }
{
    let (parts, rest) = listed::<P>(alloc, ts)?;
    let rest = mark(close, rest)?;
    Ok((parts, rest))
}

/// One part or more, with commas between.
fn listed<P: Parts>(alloc: Global, ts: &[Token]) -> Result<(Items<P::Part>, &[Token]), Stop>
    ensures { Gives (λ x. (P.all_seen x.0, x.1.now)) result (listed_at P.reads (length ts.now) ts.now) }
{
    let mut out = Items::new(alloc);
    let mut rest = ts;
    let mut left = ts.len();
    while left > 0 {
        left -= 1;
        let (part, behind) = P::read(alloc, rest)?;
        out.push(part)?;
        match after(Mark::Comma, behind) {
            Some(more) => rest = more,
            None => return Ok((out, behind)),
        }
    }
    Err(Stop::Bad { left: rest.len() })
}
