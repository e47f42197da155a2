// The readers of the sides of rules.
ghost use Rattle.std.specs.Prelude.{◌≡◌, ◌≢◌, length, map, refl};
ghost use Rattle.rule_syntax.specs.Reading.{Gives, filled_at, listed_at};
ghost use Rattle.rule_syntax.specs.ReadingSides as sides;
ghost use Rattle.rule_ast.specs.Seen.{seen_left, seen_left_in, seen_right, seen_right_in};
ghost use Rattle.rule_ast.specs.Syntax.{LeftLabel, RightLabel};

use crate::reading::lists::{Parts, filled};
use crate::reading::stop::Stop;
use crate::reading::tokens::{after, is_free, mark, name, next_is, next_is_mark, number, word};
use pr_value::{Items, Mark, Token};
use rule_ast::{AlgName, ImplIn, ImplSide, Left, LeftIn, Right, RightIn};
use std::alloc::Global;

/// Where no level is left: too deep where a name would begin another operator.
fn past_last(ts: &[Token]) -> Stop
    ensures { result ≢ Stop.Memory }
{
    match ts {
        [Token::Name(found), ..] => {
            if !is_free(found) {
                return Stop::Bad { left: ts.len() };
            }
            Stop::Deep { left: ts.len() }
        }
        _ => Stop::Bad { left: ts.len() },
    }
}

/// `?number`
fn stream(ts: &[Token]) -> Result<(u64, &[Token]), Stop>
    ensures { Gives (λ x. (x.0, x.1.now)) result (sides.stream_at ts.now) }
{
    let rest = mark(Mark::Question, ts)?;
    let (found, rest) = number(rest)?;
    Ok((found, rest))
}

/// `?number : desc`
fn impl_in(alloc: Global, ts: &[Token]) -> Result<(ImplIn, &[Token]), Stop>
    ensures { Gives (λ x. (x.0, x.1.now)) result (sides.impl_in_at ts.now) }
{
    let (number, rest) = stream(ts)?;
    let rest = mark(Mark::Colon, rest)?;
    let (desc, rest) = name(alloc, rest)?;
    Ok((ImplIn { number, desc }, rest))
}

/// A left side of at most so many levels.
#[cycle(left)]
#[tactic(auto, using(crate::proofs::SideLaws::levels_lemmas))]
pub fn left(alloc: Global, levels: u64, ts: &[Token]) -> Result<(Left, &[Token]), Stop>
    ensures { Gives (λ x. (seen_left x.0, x.1.now)) result (sides.left_at levels ts.now) }
{
    if levels == 0 {
        return Err(past_last(ts));
    }
    left_node(alloc, levels - 1, ts)
}

/// An operator on a left side, with inputs of at most so many levels.
#[cycle(left)]
#[tactic(auto, unfolding(crate::specs::ReadingSides::node_at, crate::specs::ReadingSides::inputs_at))]
fn left_node(alloc: Global, levels: u64, ts: &[Token]) -> Result<(Left, &[Token]), Stop>
    ensures { Gives (λ x. (seen_left x.0, x.1.now)) result (sides.node_at LeftLabel.operator (sides.left_in_at (sides.left_at levels)) ts.now) }
{
    let (op, rest) = name(alloc, ts)?;
    let rest = mark(Mark::OpenParen, rest)?;
    let (inputs, rest) = filled_left_ins(alloc, levels, rest)?;
    let rest = mark(Mark::Colon, rest)?;
    let (desc, rest) = name(alloc, rest)?;
    Ok((Left { op, inputs, desc }, rest))
}

/// Inputs up to the closing parenthesis.
#[cycle(left)]
#[tactic(auto, unfolding(crate::specs::Reading::filled_at))]
fn filled_left_ins(
    alloc: Global,
    levels: u64,
    ts: &[Token],
) -> Result<(Items<LeftIn>, &[Token]), Stop>
    ensures { Gives (λ x. (map seen_left_in x.0, x.1.now)) result (filled_at (sides.left_in_at (sides.left_at levels)) Mark.CloseParen ts.now) }
{
    let (inputs, rest) = listed_left_ins(alloc, levels, ts)?;
    let rest = mark(Mark::CloseParen, rest)?;
    Ok((inputs, rest))
}

/// One input or more, with commas between.
#[cycle(left)]
fn listed_left_ins(
    alloc: Global,
    levels: u64,
    ts: &[Token],
) -> Result<(Items<LeftIn>, &[Token]), Stop>
    ensures { Gives (λ x. (map seen_left_in x.0, x.1.now)) result (listed_at (sides.left_in_at (sides.left_at levels)) (length ts.now) ts.now) }
{
    let mut out = Items::new(alloc);
    let mut rest = ts;
    let mut left = ts.len();
    while left > 0 {
        left -= 1;
        let (x, behind) = left_in(alloc, levels, rest)?;
        out.push(x)?;
        match after(Mark::Comma, behind) {
            Some(more) => rest = more,
            None => return Ok((out, behind)),
        }
    }
    Err(Stop::Bad { left: rest.len() })
}

/// An input on a left side: a stream, or an operator of at most so many levels.
#[cycle(left)]
#[tactic(auto, unfolding(crate::specs::ReadingSides::left_in_at))]
fn left_in(alloc: Global, levels: u64, ts: &[Token]) -> Result<(LeftIn, &[Token]), Stop>
    ensures { Gives (λ x. (seen_left_in x.0, x.1.now)) result (sides.left_in_at (sides.left_at levels) ts.now) }
{
    if next_is_mark(Mark::Question, ts) {
        let (ImplIn { number, desc }, rest) = impl_in(alloc, ts)?;
        return Ok((LeftIn::Stream { number, desc }, rest));
    }
    let (node, rest) = left(alloc, levels, ts)?;
    Ok((LeftIn::Node(node), rest))
}

/// The right side of a T-rule, of at most so many levels.
#[cycle(right)]
#[tactic(auto, using(crate::proofs::SideLaws::levels_lemmas))]
pub fn right(alloc: Global, levels: u64, ts: &[Token]) -> Result<(Right, &[Token]), Stop>
    ensures { Gives (λ x. (seen_right x.0, x.1.now)) result (sides.right_at levels ts.now) }
{
    if levels == 0 {
        return Err(past_last(ts));
    }
    right_node(alloc, levels - 1, ts)
}

/// An operator on a right side, with inputs of at most so many levels.
#[cycle(right)]
#[tactic(auto, unfolding(crate::specs::ReadingSides::node_at, crate::specs::ReadingSides::inputs_at))]
fn right_node(alloc: Global, levels: u64, ts: &[Token]) -> Result<(Right, &[Token]), Stop>
    ensures { Gives (λ x. (seen_right x.0, x.1.now)) result (sides.node_at RightLabel.operator (sides.right_in_at (sides.right_at levels)) ts.now) }
{
    let (op, rest) = name(alloc, ts)?;
    let rest = mark(Mark::OpenParen, rest)?;
    let (inputs, rest) = filled_right_ins(alloc, levels, rest)?;
    let rest = mark(Mark::Colon, rest)?;
    let (desc, rest) = name(alloc, rest)?;
    Ok((Right { op, inputs, desc }, rest))
}

/// Inputs up to the closing parenthesis.
#[cycle(right)]
#[tactic(auto, unfolding(crate::specs::Reading::filled_at))]
fn filled_right_ins(
    alloc: Global,
    levels: u64,
    ts: &[Token],
) -> Result<(Items<RightIn>, &[Token]), Stop>
    ensures { Gives (λ x. (map seen_right_in x.0, x.1.now)) result (filled_at (sides.right_in_at (sides.right_at levels)) Mark.CloseParen ts.now) }
{
    let (inputs, rest) = listed_right_ins(alloc, levels, ts)?;
    let rest = mark(Mark::CloseParen, rest)?;
    Ok((inputs, rest))
}

/// One input or more, with commas between.
#[cycle(right)]
fn listed_right_ins(
    alloc: Global,
    levels: u64,
    ts: &[Token],
) -> Result<(Items<RightIn>, &[Token]), Stop>
    ensures { Gives (λ x. (map seen_right_in x.0, x.1.now)) result (listed_at (sides.right_in_at (sides.right_at levels)) (length ts.now) ts.now) }
{
    let mut out = Items::new(alloc);
    let mut rest = ts;
    let mut left = ts.len();
    while left > 0 {
        left -= 1;
        let (x, behind) = right_in(alloc, levels, rest)?;
        out.push(x)?;
        match after(Mark::Comma, behind) {
            Some(more) => rest = more,
            None => return Ok((out, behind)),
        }
    }
    Err(Stop::Bad { left: rest.len() })
}

/// An input on a right side: a stream, or an operator of at most so many levels.
#[cycle(right)]
#[tactic(auto, unfolding(crate::specs::ReadingSides::right_in_at))]
fn right_in(alloc: Global, levels: u64, ts: &[Token]) -> Result<(RightIn, &[Token]), Stop>
    ensures { Gives (λ x. (seen_right_in x.0, x.1.now)) result (sides.right_in_at (sides.right_at levels) ts.now) }
{
    if next_is_mark(Mark::Question, ts) {
        let (number, rest) = stream(ts)?;
        return Ok((RightIn::Stream { number }, rest));
    }
    let (node, rest) = right(alloc, levels, ts)?;
    Ok((RightIn::Node(node), rest))
}

/// An algorithm's name, or `Null`.
fn alg_name(alloc: Global, ts: &[Token]) -> Result<(AlgName, &[Token]), Stop>
    ensures { Gives (λ x. (x.0, x.1.now)) result (sides.alg_at ts.now) }
{
    if next_is(b"Null", ts) {
        let rest = word(b"Null", ts)?;
        return Ok((AlgName::Null, rest));
    }
    let (found, rest) = name(alloc, ts)?;
    Ok((AlgName::Named(found), rest))
}

/// The right side of an I-rule.
#[tactic(auto, unfolding(crate::specs::ReadingSides::impl_at, crate::specs::ReadingSides::inputs_at))]
pub fn impl_side(alloc: Global, ts: &[Token]) -> Result<(ImplSide, &[Token]), Stop>
    ensures { Gives (λ x. (x.0, x.1.now)) result (sides.impl_at ts.now) }
{
    let (alg, rest) = alg_name(alloc, ts)?;
    let rest = mark(Mark::OpenParen, rest)?;
    let (inputs, rest) = filled::<ImplIns>(alloc, Mark::CloseParen, rest)?;
    let rest = mark(Mark::Colon, rest)?;
    let (desc, rest) = name(alloc, rest)?;
    Ok((ImplSide { alg, inputs, desc }, rest))
}

/// `?number : desc`
struct ImplIns;

impl Parts for ImplIns {
    ghost use Rattle.rule_ast.specs.declared.sides.ImplIn.{ImplIn};

    type Part = ImplIn;

    ghost Seen = { ImplIn };

    ghost seen = { λ x. x };

    ghost all_seen = { λ xs. xs };

    ghost reads = { sides.impl_in_at };

    fn read(alloc: Global, ts: &[Token]) -> Result<(ImplIn, &[Token]), Stop> {
        impl_in(alloc, ts)
    }

    ghost none = { refl };

    ghost one_more = { λ xs x. refl };
}
