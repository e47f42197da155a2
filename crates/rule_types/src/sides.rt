// The labels of a side of a rule: one walk for left sides, one for right sides.
ghost use Rattle.std.specs.Prelude.{◌≡◌, ℕ, Bool, map};
ghost use Rattle.pr_value.specs.Trees.{trees_of};
ghost use Rattle.rule_ast.specs.Seen.{seen_left, seen_left_in, seen_right, seen_right_in};
ghost use Rattle.rule_ast.specs.Syntax.{LeftLabel, RightLabel};
ghost use Rattle.rule_types.specs.Uses.{any_node, any_nodes};

use pr_value::Symbol;
use rule_ast::{Left, LeftIn, Right, RightIn};

/// A question on an operator with its number of inputs, or on a stream of a left side.
pub trait LeftQuestion {
    ghost asked: { Self → LeftLabel → ℕ → Bool };

    fn asks_operator(&self, op: &Symbol, desc: &Symbol, inputs: usize) -> bool
        ensures { result ≡ asked self.now (LeftLabel.operator op.now desc.now) inputs };

    fn asks_stream(&self, number: u64, desc: &Symbol) -> bool
        ensures { result ≡ asked self.now (LeftLabel.stream number desc.now) 0 };
}

/// Whether the question holds of some operator or stream of a left side.
#[cycle(any_left)]
#[tactic(auto, using(crate::proofs::SideLaws::side_laws))]
pub fn any_left<Q: LeftQuestion>(left: &Left, question: &Q) -> bool
    ensures { result ≡ any_node (Q.asked question.now) (seen_left left.now) }
{
    let inputs = left.inputs.as_slice();
    question.asks_operator(&left.op, &left.desc, inputs.len()) || any_left_ins(inputs, question)
}

#[cycle(any_left)]
fn any_left_in<Q: LeftQuestion>(input: &LeftIn, question: &Q) -> bool
    ensures { result ≡ any_node (Q.asked question.now) (seen_left_in input.now) }
{
    match input {
        LeftIn::Node(left) => any_left(left, question),
        LeftIn::Stream { number, desc } => question.asks_stream(*number, desc),
    }
}

#[cycle(any_left)]
fn any_left_ins<Q: LeftQuestion>(inputs: &[LeftIn], question: &Q) -> bool
    ensures { result ≡ any_nodes (Q.asked question.now) (trees_of (map seen_left_in inputs.now)) }
{
    for input in inputs {
        if any_left_in(input, question) {
            return true;
        }
    }
    false
}

/// A question on an operator with its number of inputs, or on a stream of a right side.
pub trait RightQuestion {
    ghost asked: { Self → RightLabel → ℕ → Bool };

    fn asks_operator(&self, op: &Symbol, desc: &Symbol, inputs: usize) -> bool
        ensures { result ≡ asked self.now (RightLabel.operator op.now desc.now) inputs };

    fn asks_stream(&self, number: u64) -> bool
        ensures { result ≡ asked self.now (RightLabel.stream number) 0 };
}

/// Whether the question holds of some operator or stream of a T-rule's right side.
#[cycle(any_right)]
#[tactic(auto, using(crate::proofs::SideLaws::side_laws))]
pub fn any_right<Q: RightQuestion>(right: &Right, question: &Q) -> bool
    ensures { result ≡ any_node (Q.asked question.now) (seen_right right.now) }
{
    let inputs = right.inputs.as_slice();
    question.asks_operator(&right.op, &right.desc, inputs.len()) || any_right_ins(inputs, question)
}

#[cycle(any_right)]
fn any_right_in<Q: RightQuestion>(input: &RightIn, question: &Q) -> bool
    ensures { result ≡ any_node (Q.asked question.now) (seen_right_in input.now) }
{
    match input {
        RightIn::Node(right) => any_right(right, question),
        RightIn::Stream { number } => question.asks_stream(*number),
    }
}

#[cycle(any_right)]
fn any_right_ins<Q: RightQuestion>(inputs: &[RightIn], question: &Q) -> bool
    ensures { result ≡ any_nodes (Q.asked question.now) (trees_of (map seen_right_in inputs.now)) }
{
    for input in inputs {
        if any_right_in(input, question) {
            return true;
        }
    }
    false
}
