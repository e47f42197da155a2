// The numbers of the streams of a left side.
ghost use Rattle.std.specs.Prelude.{◌≡◌, ◌++◌, flat_map, IfOk, OnOk};
ghost use Rattle.rule_ast.specs.Descs as spec;
ghost use Rattle.rule_ast.specs.Seen.{seen_left, seen_left_in};

use crate::sides::{Left, LeftIn};
use pr_value::Memory;
use std::alloc::Global;

#[cycle(push_numbers)]
fn push_left(left: &Left, out: &mut Vec<u64>) -> Result<(), Memory>
    ensures { OnOk result (out.new.items ≡ out.old.items ++ spec.stream_numbers (seen_left left.now)) }
{
    push_left_ins(left.inputs.as_slice(), out)?;
    Ok(())
}

#[cycle(push_numbers)]
fn push_left_in(input: &LeftIn, out: &mut Vec<u64>) -> Result<(), Memory>
    ensures { OnOk result
        (out.new.items ≡ out.old.items ++ spec.stream_numbers (seen_left_in input.now)) }
{
    match input {
        LeftIn::Node(left) => push_left(left, out)?,
        LeftIn::Stream { number, .. } => out.push(*number)?,
    }
    Ok(())
}

#[cycle(push_numbers)]
fn push_left_ins(inputs: &[LeftIn], out: &mut Vec<u64>) -> Result<(), Memory>
    ensures { OnOk result (out.new.items
        ≡ out.old.items ++ flat_map (λ x. spec.stream_numbers (seen_left_in x)) inputs.now) }
{
    for input in inputs {
        push_left_in(input, out)?;
    }
    Ok(())
}

/// The numbers of the streams of a left side, in the order of the text.
pub fn stream_numbers(alloc: Global, left: &Left) -> Result<Vec<u64>, Memory>
    ensures { IfOk result (λ ns. ns.items ≡ spec.stream_numbers (seen_left left.now)) }
{
    let mut numbers = Vec::new(alloc);
    push_left(left, &mut numbers)?;
    Ok(numbers)
}
