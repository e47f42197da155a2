// Sides of rules by numbers.
ghost use Rattle.std.specs.Prelude.{◌≡◌, map, IfOk};
ghost use Rattle.pr_value.specs.Trees.{trees_of};
ghost use Rattle.rule_ast.specs.Seen.{seen_left, seen_left_in, seen_operator, seen_right, seen_right_in};
ghost use Rattle.rule_runs.specs.SeenSides.{seen_side};
ghost use Rattle.rule_runs.specs.Sides as spec;

use pr_value::{Items, Memory, Symbol};
use rule_ast::{Left, LeftIn, Operator, Right, RightIn, stream_numbers};
use std::alloc::Global;

/// A left or a right side of a rule: operators by their places of declaration, streams by their
/// places among the streams of the left side, both from 0.
#[derive(Drop)]
pub enum Side {
    Operator { op: usize, inputs: Items<Side> },
    Stream { place: usize },
}

/// The place of declaration of the operator of that name, from 0, or how many there are where it is
/// not declared.
pub fn operator_at(operators: &[Operator], name: &Symbol) -> usize
    ensures { result ≡ spec.operator_at (map seen_operator operators.now) name.now }
{
    for (place, operator) in operators.iter().enumerate() {
        if operator.name == *name {
            return place;
        }
    }
    operators.len()
}

/// The place of a number, or how many there are where it is none of them.
fn place_in(numbers: &[u64], number: u64) -> usize
    ensures { result ≡ spec.place_in numbers.now number }
{
    for (place, one) in numbers.iter().enumerate() {
        if *one == number {
            return place;
        }
    }
    numbers.len()
}

#[cycle(left)]
fn left_node(
    alloc: Global,
    operators: &[Operator],
    numbers: &[u64],
    left: &Left,
) -> Result<Side, Memory>
    ensures { IfOk result (λ s. seen_side s
        ≡ spec.left_side_in (map seen_operator operators.now) numbers.now (seen_left left.now)) }
{
    let op = operator_at(operators, &left.op);
    let inputs = left_inputs(alloc, operators, numbers, left.inputs.as_slice())?;
    Ok(Side::Operator { op, inputs })
}

#[cycle(left)]
fn left_input(
    alloc: Global,
    operators: &[Operator],
    numbers: &[u64],
    input: &LeftIn,
) -> Result<Side, Memory>
    ensures { IfOk result (λ s. seen_side s
        ≡ spec.left_side_in (map seen_operator operators.now) numbers.now (seen_left_in input.now)) }
{
    match input {
        LeftIn::Node(left) => left_node(alloc, operators, numbers, left),
        LeftIn::Stream { number, .. } => Ok(Side::Stream {
            place: place_in(numbers, *number),
        }),
    }
}

#[cycle(left)]
fn left_inputs(
    alloc: Global,
    operators: &[Operator],
    numbers: &[u64],
    inputs: &[LeftIn],
) -> Result<Items<Side>, Memory>
    ensures { IfOk result (λ ss. trees_of (map seen_side ss)
        ≡ spec.left_sides_in (map seen_operator operators.now) numbers.now
        (trees_of (map seen_left_in inputs.now))) }
{
    let mut sides = Items::new(alloc);
    for input in inputs {
        let side = left_input(alloc, operators, numbers, input)?;
        sides.push(side)?;
    }
    Ok(sides)
}

/// The left side of a rule by numbers. Names are looked up here, and where it is matched no more.
pub fn left_side(alloc: Global, operators: &[Operator], left: &Left) -> Result<Side, Memory>
    ensures { IfOk result (λ s. seen_side s
        ≡ spec.left_side (map seen_operator operators.now) (seen_left left.now)) }
{
    let numbers = stream_numbers(alloc, left)?;
    left_node(alloc, operators, numbers.as_slice(), left)
}

#[cycle(right)]
fn right_node(
    alloc: Global,
    operators: &[Operator],
    numbers: &[u64],
    right: &Right,
) -> Result<Side, Memory>
    ensures { IfOk result (λ s. seen_side s
        ≡ spec.right_side_in (map seen_operator operators.now) numbers.now (seen_right right.now)) }
{
    let op = operator_at(operators, &right.op);
    let inputs = right_inputs(alloc, operators, numbers, right.inputs.as_slice())?;
    Ok(Side::Operator { op, inputs })
}

#[cycle(right)]
fn right_input(
    alloc: Global,
    operators: &[Operator],
    numbers: &[u64],
    input: &RightIn,
) -> Result<Side, Memory>
    ensures { IfOk result (λ s. seen_side s
        ≡ spec.right_side_in (map seen_operator operators.now) numbers.now (seen_right_in input.now)) }
{
    match input {
        RightIn::Node(right) => right_node(alloc, operators, numbers, right),
        RightIn::Stream { number } => Ok(Side::Stream {
            place: place_in(numbers, *number),
        }),
    }
}

#[cycle(right)]
fn right_inputs(
    alloc: Global,
    operators: &[Operator],
    numbers: &[u64],
    inputs: &[RightIn],
) -> Result<Items<Side>, Memory>
    ensures { IfOk result (λ ss. trees_of (map seen_side ss)
        ≡ spec.right_sides_in (map seen_operator operators.now) numbers.now
        (trees_of (map seen_right_in inputs.now))) }
{
    let mut sides = Items::new(alloc);
    for input in inputs {
        let side = right_input(alloc, operators, numbers, input)?;
        sides.push(side)?;
    }
    Ok(sides)
}

/// The right side of a rule with this left side, by numbers.
pub fn right_side(
    alloc: Global,
    operators: &[Operator],
    left: &Left,
    right: &Right,
) -> Result<Side, Memory>
    ensures { IfOk result (λ s. seen_side s
        ≡ spec.right_side (map seen_operator operators.now) (seen_left left.now) (seen_right right.now)) }
{
    let numbers = stream_numbers(alloc, left)?;
    right_node(alloc, operators, numbers.as_slice(), right)
}
