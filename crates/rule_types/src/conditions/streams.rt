// Conditions on the streams of a rule.
ghost use Rattle.std.specs.Prelude.{◌≡◌, ◌==◌, map, not, IfOk};
ghost use Rattle.std.specs.List.{list_all, zip};
ghost use Rattle.rule_ast.specs.Descs as descs;
ghost use Rattle.rule_ast.specs.Seen.{seen_left};
ghost use Rattle.rule_types.specs.Conditions as spec;
ghost use Rattle.rule_types.specs.Conditions.{are_numbers_distinct, same_numbers};
ghost use Rattle.rule_types.specs.SeenDeclarations.{seen_declaration};

use crate::declaration::Declaration;
use pr_value::Memory;
use rule_ast::{ImplIn, Left, stream_numbers};
use std::alloc::Global;
use std::collections::BTreeSet;

fn are_distinct(alloc: Global, numbers: &[u64]) -> Result<bool, Memory>
    ensures { IfOk result (λ b. b ≡ are_numbers_distinct numbers.now) }
{
    let mut earlier = BTreeSet::new(alloc);
    for number in numbers {
        let is_new = earlier.insert(*number)?;
        if !is_new {
            return Ok(false);
        }
    }
    Ok(true)
}

fn has_stream_twice(alloc: Global, left: &Left) -> Result<bool, Memory>
    ensures { IfOk result (λ b. b ≡ not (are_numbers_distinct (descs.stream_numbers (seen_left left.now)))) }
{
    let numbers = stream_numbers(alloc, left)?;
    let distinct = are_distinct(alloc, numbers.as_slice())?;
    Ok(!distinct)
}

/// Whether a stream stands twice on the rule's left side.
pub fn left_stream_twice(alloc: Global, d: &Declaration) -> Result<bool, Memory>
    ensures { IfOk result (λ b. b ≡ spec.left_stream_twice (seen_declaration d.now)) }
{
    match d {
        Declaration::TRule { this, .. } => has_stream_twice(alloc, &this.left),
        Declaration::IRule { this, .. } => has_stream_twice(alloc, &this.left),
        _ => Ok(false),
    }
}

#[tactic(auto, using(crate::proofs::DistinctLaws::number_laws))]
fn same_numbers(inputs: &[ImplIn], numbers: &[u64]) -> bool
    ensures { result ≡ same_numbers (map (λ s. s.number) inputs.now) numbers.now }
{
    inputs.len() == numbers.len() && each_same(inputs, numbers)
}

fn each_same(inputs: &[ImplIn], numbers: &[u64]) -> bool
    ensures { result ≡ list_all (λ z. z.0.number == z.1) (zip inputs.now numbers.now) }
{
    inputs
        .iter()
        .zip(numbers)
        .all(|(input, number)| input.number == *number)
}

/// Whether the declaration is an I-rule whose right streams are not its left ones, in their order.
pub fn stream_order(alloc: Global, d: &Declaration) -> Result<bool, Memory>
    ensures { IfOk result (λ b. b ≡ spec.stream_order (seen_declaration d.now)) }
{
    match d {
        Declaration::IRule { this, .. } => {
            let numbers = stream_numbers(alloc, &this.left)?;
            Ok(!same_numbers(this.right.inputs.as_slice(), numbers.as_slice()))
        }
        _ => Ok(false),
    }
}
