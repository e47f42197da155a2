// What names stand for in the frames that are open, the innermost last.
ghost use Rattle.std.specs.Prelude.{◌≡◌, ◌≤◌, map, reverse, take, length, IfOk};
ghost use Rattle.action_eval.specs.Machine.{World, helpers_in, is_in_body, scope_in};
ghost use Rattle.action_eval.specs.Meaning.{bound, value_in};
ghost use Rattle.action_eval.specs.SeenMachine.{seen_frame};

use crate::arguments::copy_at;
use crate::held::Held;
use crate::machine::Frame;
use pr_value::{Memory, Symbol, Value};
use rule_ast::Param;
use std::alloc::Global;

fn argument<'a>(
    alloc: Global,
    name: &Symbol,
    params: &[Param],
    args: &[Held<'a>],
) -> Result<Held<'a>, Memory>
    ensures { IfOk result (λ v. v ≡ value_in (bound params.now args.now) name.now) }
{
    for (i, param) in params.iter().enumerate() {
        if param.name == *name {
            return copy_at(alloc, args, i);
        }
    }
    Ok(Held::own(Value::Num(0)))
}

/// The value of that name, or 0.
pub fn variable<'a>(alloc: Global, name: &Symbol, frames: &[Frame<'a>]) -> Result<Held<'a>, Memory>
    ensures { (w : World) → IfOk result (λ v.
        v ≡ value_in (scope_in w (map seen_frame (reverse frames.now))).values name.now) }
{
    let mut left = frames.len();
    while left > 0 {
        left -= 1;
        match &frames[left] {
            Frame::Body(params, args, _) => return argument(alloc, name, params, args.as_slice()),
            Frame::Member(own, member) => {
                if **own == *name {
                    return Ok(Held::own(Value::Sym(member.copy(alloc)?)));
                }
            }
        }
    }
    Ok(Held::own(Value::Num(0)))
}

/// How many helpers are seen, of so many.
pub fn seen_count(frames: &[Frame], all: usize) -> usize
    ensures within { result ≤ all }
    ensures seen { (w : World) → length w.helpers ≡ all
        → helpers_in w (map seen_frame (reverse frames.now)) ≡ take result w.helpers }
{
    let mut left = frames.len();
    while left > 0 {
        left -= 1;
        match &frames[left] {
            Frame::Body(_, _, seen) => return (*seen).min(all),
            Frame::Member(..) => continue,
        }
    }
    all
}

/// Whether a helper's body is evaluated, which sees no descriptors.
pub fn is_in_body(frames: &[Frame]) -> bool
    ensures { result ≡ is_in_body (map seen_frame (reverse frames.now)) }
{
    let mut left = frames.len();
    while left > 0 {
        left -= 1;
        match &frames[left] {
            Frame::Body(..) => return true,
            Frame::Member(..) => continue,
        }
    }
    false
}
