// Copies of the sides of rules.
ghost use Rattle.std.specs.Prelude.{◌≡◌, IfOk};

use crate::copying::{Copied, copy_items};
use crate::sides::{AlgName, ImplIn, ImplSide, Left, LeftIn, Right, RightIn};
use pr_value::{Items, Memory};
use std::alloc::Global;

#[cycle(copy_left)]
fn copy_left(alloc: Global, left: &Left) -> Result<Left, Memory>
    ensures { IfOk result (λ copy. copy ≡ left.now) }
{
    Ok(Left {
        op: left.op.copy(alloc)?,
        inputs: copy_left_ins(alloc, left.inputs.as_slice())?,
        desc: left.desc.copy(alloc)?,
    })
}

#[cycle(copy_left)]
fn copy_left_in(alloc: Global, input: &LeftIn) -> Result<LeftIn, Memory>
    ensures { IfOk result (λ copy. copy ≡ input.now) }
{
    match input {
        LeftIn::Node(left) => Ok(LeftIn::Node(copy_left(alloc, left)?)),
        LeftIn::Stream { number, desc } => Ok(LeftIn::Stream {
            number: *number,
            desc: desc.copy(alloc)?,
        }),
    }
}

#[cycle(copy_left)]
fn copy_left_ins(alloc: Global, inputs: &[LeftIn]) -> Result<Items<LeftIn>, Memory>
    ensures { IfOk result (λ copies. copies ≡ inputs.now) }
{
    let mut copies = Items::new(alloc);
    for input in inputs {
        copies.push(copy_left_in(alloc, input)?)?;
    }
    Ok(copies)
}

impl Copied for Left {
    fn copy(&self, alloc: Global) -> Result<Left, Memory> {
        copy_left(alloc, self)
    }
}

#[cycle(copy_right)]
fn copy_right(alloc: Global, right: &Right) -> Result<Right, Memory>
    ensures { IfOk result (λ copy. copy ≡ right.now) }
{
    Ok(Right {
        op: right.op.copy(alloc)?,
        inputs: copy_right_ins(alloc, right.inputs.as_slice())?,
        desc: right.desc.copy(alloc)?,
    })
}

#[cycle(copy_right)]
fn copy_right_in(alloc: Global, input: &RightIn) -> Result<RightIn, Memory>
    ensures { IfOk result (λ copy. copy ≡ input.now) }
{
    match input {
        RightIn::Node(right) => Ok(RightIn::Node(copy_right(alloc, right)?)),
        RightIn::Stream { number } => Ok(RightIn::Stream { number: *number }),
    }
}

#[cycle(copy_right)]
fn copy_right_ins(alloc: Global, inputs: &[RightIn]) -> Result<Items<RightIn>, Memory>
    ensures { IfOk result (λ copies. copies ≡ inputs.now) }
{
    let mut copies = Items::new(alloc);
    for input in inputs {
        copies.push(copy_right_in(alloc, input)?)?;
    }
    Ok(copies)
}

impl Copied for Right {
    fn copy(&self, alloc: Global) -> Result<Right, Memory> {
        copy_right(alloc, self)
    }
}

impl Copied for AlgName {
    fn copy(&self, alloc: Global) -> Result<AlgName, Memory> {
        match self {
            AlgName::Named(name) => Ok(AlgName::Named(name.copy(alloc)?)),
            AlgName::Null => Ok(AlgName::Null),
        }
    }
}

impl Copied for ImplIn {
    fn copy(&self, alloc: Global) -> Result<ImplIn, Memory> {
        Ok(ImplIn {
            number: self.number,
            desc: self.desc.copy(alloc)?,
        })
    }
}

impl Copied for ImplSide {
    fn copy(&self, alloc: Global) -> Result<ImplSide, Memory> {
        Ok(ImplSide {
            alg: self.alg.copy(alloc)?,
            inputs: copy_items(alloc, self.inputs.as_slice())?,
            desc: self.desc.copy(alloc)?,
        })
    }
}
