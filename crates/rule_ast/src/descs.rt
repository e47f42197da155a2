// The names of descriptors of operators and rules, in the order of the text.
ghost use Rattle.std.specs.Prelude.{◌≡◌, ◌++◌, [], ◌∷◌, flat_map, IfOk, OnOk};
ghost use Rattle.rule_ast.specs.Descs as spec;
ghost use Rattle.rule_ast.specs.Descs.{left_descs, node_descs, right_descs, impl_descs};
ghost use Rattle.rule_ast.specs.Seen.{seen_left, seen_left_in, seen_right, seen_right_in, seen_operator, seen_trule, seen_irule};

use crate::parts::{IRule, Operator, TRule};
use crate::sides::{ImplIn, ImplSide, Left, LeftIn, Right, RightIn};
use pr_value::{Items, Memory, Symbol};
use std::alloc::Global;

fn push(alloc: Global, name: &Symbol, out: &mut Items<Symbol>) -> Result<(), Memory>
    ensures { OnOk result (out.new ≡ out.old ++ name.now ∷ []) }
{
    let name = name.copy(alloc)?;
    out.push(name)?;
    Ok(())
}

#[cycle(push_nodes)]
fn push_nodes(alloc: Global, left: &Left, out: &mut Items<Symbol>) -> Result<(), Memory>
    ensures { OnOk result (out.new ≡ out.old ++ node_descs (seen_left left.now)) }
{
    push(alloc, &left.desc, out)?;
    push_nodes_of(alloc, left.inputs.as_slice(), out)?;
    Ok(())
}

#[cycle(push_nodes)]
fn push_nodes_in(alloc: Global, input: &LeftIn, out: &mut Items<Symbol>) -> Result<(), Memory>
    ensures { OnOk result (out.new ≡ out.old ++ node_descs (seen_left_in input.now)) }
{
    match input {
        LeftIn::Node(left) => push_nodes(alloc, left, out),
        LeftIn::Stream { .. } => Ok(()),
    }
}

#[cycle(push_nodes)]
fn push_nodes_of(alloc: Global, inputs: &[LeftIn], out: &mut Items<Symbol>) -> Result<(), Memory>
    ensures { OnOk result (out.new ≡ out.old ++ flat_map (λ x. node_descs (seen_left_in x)) inputs.now) }
{
    for input in inputs {
        push_nodes_in(alloc, input, out)?;
    }
    Ok(())
}

#[cycle(push_right)]
fn push_right(alloc: Global, right: &Right, out: &mut Items<Symbol>) -> Result<(), Memory>
    ensures { OnOk result (out.new ≡ out.old ++ right_descs (seen_right right.now)) }
{
    push(alloc, &right.desc, out)?;
    push_right_ins(alloc, right.inputs.as_slice(), out)?;
    Ok(())
}

#[cycle(push_right)]
fn push_right_in(alloc: Global, input: &RightIn, out: &mut Items<Symbol>) -> Result<(), Memory>
    ensures { OnOk result (out.new ≡ out.old ++ right_descs (seen_right_in input.now)) }
{
    match input {
        RightIn::Node(right) => push_right(alloc, right, out),
        RightIn::Stream { .. } => Ok(()),
    }
}

#[cycle(push_right)]
fn push_right_ins(alloc: Global, inputs: &[RightIn], out: &mut Items<Symbol>) -> Result<(), Memory>
    ensures { OnOk result (out.new ≡ out.old ++ flat_map (λ x. right_descs (seen_right_in x)) inputs.now) }
{
    for input in inputs {
        push_right_in(alloc, input, out)?;
    }
    Ok(())
}

#[cycle(push_streams)]
fn push_streams_in(alloc: Global, input: &LeftIn, out: &mut Items<Symbol>) -> Result<(), Memory>
    ensures { OnOk result (out.new ≡ out.old ++ spec.stream_descs (seen_left_in input.now)) }
{
    match input {
        LeftIn::Node(left) => push_streams(alloc, left, out),
        LeftIn::Stream { desc, .. } => push(alloc, desc, out),
    }
}

#[cycle(push_streams)]
fn push_streams(alloc: Global, left: &Left, out: &mut Items<Symbol>) -> Result<(), Memory>
    ensures { OnOk result (out.new ≡ out.old ++ spec.stream_descs (seen_left left.now)) }
{
    push_streams_of(alloc, left.inputs.as_slice(), out)?;
    Ok(())
}

#[cycle(push_streams)]
fn push_streams_of(alloc: Global, inputs: &[LeftIn], out: &mut Items<Symbol>) -> Result<(), Memory>
    ensures { OnOk result (out.new ≡ out.old ++ flat_map (λ x. spec.stream_descs (seen_left_in x)) inputs.now) }
{
    for input in inputs {
        push_streams_in(alloc, input, out)?;
    }
    Ok(())
}

fn push_inputs(alloc: Global, inputs: &[ImplIn], out: &mut Items<Symbol>) -> Result<(), Memory>
    ensures { OnOk result (out.new ≡ out.old ++ spec.names_of inputs.now) }
{
    for input in inputs {
        push(alloc, &input.desc, out)?;
    }
    Ok(())
}

fn push_names(alloc: Global, names: &[Symbol], out: &mut Items<Symbol>) -> Result<(), Memory>
    ensures { OnOk result (out.new ≡ out.old ++ names.now) }
{
    for name in names {
        push(alloc, name, out)?;
    }
    Ok(())
}

fn push_impl(alloc: Global, side: &ImplSide, out: &mut Items<Symbol>) -> Result<(), Memory>
    ensures { OnOk result (out.new ≡ out.old ++ impl_descs side.now) }
{
    push_inputs(alloc, side.inputs.as_slice(), out)?;
    push(alloc, &side.desc, out)?;
    Ok(())
}

/// The names of an algorithm's inputs.
pub fn names_of(alloc: Global, inputs: &[ImplIn]) -> Result<Items<Symbol>, Memory>
    ensures { IfOk result (λ names. names ≡ spec.names_of inputs.now) }
{
    let mut names = Items::new(alloc);
    push_inputs(alloc, inputs, &mut names)?;
    Ok(names)
}

/// The names of the nodes of a left side, the root's first, and then those of its streams.
fn push_left(alloc: Global, left: &Left, out: &mut Items<Symbol>) -> Result<(), Memory>
    ensures { OnOk result (out.new ≡ out.old ++ left_descs (seen_left left.now)) }
{
    push_nodes(alloc, left, out)?;
    push_streams(alloc, left, out)?;
    Ok(())
}

/// The names of the streams of a left side.
pub fn stream_descs(alloc: Global, left: &Left) -> Result<Items<Symbol>, Memory>
    ensures { IfOk result (λ names. names ≡ spec.stream_descs (seen_left left.now)) }
{
    let mut names = Items::new(alloc);
    push_streams(alloc, left, &mut names)?;
    Ok(names)
}

/// The names of the nodes of a right side, the root's first.
pub fn right_descs(alloc: Global, right: &Right) -> Result<Items<Symbol>, Memory>
    ensures { IfOk result (λ names. names ≡ spec.right_descs (seen_right right.now)) }
{
    let mut names = Items::new(alloc);
    push_right(alloc, right, &mut names)?;
    Ok(names)
}

/// The operator's views, and then its own descriptor.
pub fn operator_descs(alloc: Global, operator: &Operator) -> Result<Items<Symbol>, Memory>
    ensures { IfOk result (λ names. names ≡ spec.operator_descs (seen_operator operator.now)) }
{
    let mut names = Items::new(alloc);
    push_names(alloc, operator.views.as_slice(), &mut names)?;
    push(alloc, &operator.own, &mut names)?;
    Ok(names)
}

/// The descriptors of the rule's left side, and then those of its right side.
pub fn trule_descs(alloc: Global, rule: &TRule) -> Result<Items<Symbol>, Memory>
    ensures { IfOk result (λ names. names ≡ spec.trule_descs (seen_trule rule.now)) }
{
    let mut names = Items::new(alloc);
    push_left(alloc, &rule.left, &mut names)?;
    push_right(alloc, &rule.right, &mut names)?;
    Ok(names)
}

/// The descriptors of the rule's left side, and then those of its right side.
pub fn irule_descs(alloc: Global, rule: &IRule) -> Result<Items<Symbol>, Memory>
    ensures { IfOk result (λ names. names ≡ spec.irule_descs (seen_irule rule.now)) }
{
    let mut names = Items::new(alloc);
    push_left(alloc, &rule.left, &mut names)?;
    push_impl(alloc, &rule.right, &mut names)?;
    Ok(names)
}
