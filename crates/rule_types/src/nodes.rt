// How many operators a side has.
ghost use Rattle.std.specs.Prelude.{◌≡◌, ◌-◌, ◌^◌, min, map};
ghost use Rattle.pr_value.specs.Trees.{trees_of};
ghost use Rattle.rule_ast.specs.Seen.{seen_left, seen_left_in, seen_right, seen_right_in};
ghost use Rattle.rule_types.specs.Uses.{nodes, nodes_of, counts_left, counts_right};

use rule_ast::{Left, LeftIn, Right, RightIn};

/// How many operators a left side has, up to the greatest number.
#[cycle(left_nodes)]
pub fn left_nodes(left: &Left) -> u64
    ensures { result ≡ min (nodes counts_left (seen_left left.now)) (2 ^ 64 - 1) }
{
    nodes_of_left_ins(left.inputs.as_slice()).saturating_add(1)
}

#[cycle(left_nodes)]
fn nodes_of_left_in(input: &LeftIn) -> u64
    ensures { result ≡ min (nodes counts_left (seen_left_in input.now)) (2 ^ 64 - 1) }
{
    match input {
        LeftIn::Node(left) => left_nodes(left),
        LeftIn::Stream { .. } => 0,
    }
}

#[cycle(left_nodes)]
fn nodes_of_left_ins(inputs: &[LeftIn]) -> u64
    ensures { result ≡ min (nodes_of counts_left (trees_of (map seen_left_in inputs.now))) (2 ^ 64 - 1) }
{
    let mut count = 0u64;
    for input in inputs {
        count = count.saturating_add(nodes_of_left_in(input));
    }
    count
}

/// How many operators a T-rule's right side has, up to the greatest number.
#[cycle(right_nodes)]
pub fn right_nodes(right: &Right) -> u64
    ensures { result ≡ min (nodes counts_right (seen_right right.now)) (2 ^ 64 - 1) }
{
    nodes_of_right_ins(right.inputs.as_slice()).saturating_add(1)
}

#[cycle(right_nodes)]
fn nodes_of_right_in(input: &RightIn) -> u64
    ensures { result ≡ min (nodes counts_right (seen_right_in input.now)) (2 ^ 64 - 1) }
{
    match input {
        RightIn::Node(right) => right_nodes(right),
        RightIn::Stream { .. } => 0,
    }
}

#[cycle(right_nodes)]
fn nodes_of_right_ins(inputs: &[RightIn]) -> u64
    ensures { result ≡ min (nodes_of counts_right (trees_of (map seen_right_in inputs.now))) (2 ^ 64 - 1) }
{
    let mut count = 0u64;
    for input in inputs {
        count = count.saturating_add(nodes_of_right_in(input));
    }
    count
}
