ghost use Rattle.std.specs.Prelude.{◌≡◌, ◌++◌, length, map, take, IfOk, OnOk};
ghost use Rattle.pr_value.specs.Trees.{inputs};
ghost use Rattle.descriptor_types.specs.Labels.{desc_of, view, ask, seen_tree};

use crate::desc::Desc;
use crate::layout::Layout;
use crate::mask::Mask;
use pr_value::{Items, Memory, Symbol};
use std::alloc::Global;

/// A file, or an operator, by its place of declaration from 0, over its inputs.
#[derive(Drop)]
pub enum Tree {
    File {
        name: Symbol,
        desc: Desc,
    },
    Node {
        op: usize,
        desc: Desc,
        inputs: Items<Tree>,
    },
}

#[cycle(copy_tree)]
fn copy_trees(alloc: Global, trees: &[Tree]) -> Result<Items<Tree>, Memory>
    ensures { IfOk result (λ ts. ts ≡ trees.now) }
{
    let mut copies = Vec::with_capacity(alloc, trees.len())?;
    for tree in trees {
        copies.push(tree.copy(alloc)?)?;
    }
    Ok(Items::from_vec(copies))
}

/// Appends the views of trees, in their order. After an error some of them may stand there, behind
/// what stood there before.
pub fn push_views(
    alloc: Global,
    layout: &Layout,
    seen: &Mask,
    trees: &[Tree],
    out: &mut Items<Desc>,
) -> Result<(), Memory>
    ensures kept { take (length out.old) out.new ≡ out.old }
    ensures pushed { OnOk result
        (out.new ≡ out.old ++ map (λ t. view layout.now seen.now (seen_tree t)) trees.now) }
{
    for tree in trees {
        out.push(tree.desc().view(alloc, layout, seen)?)?;
    }
    Ok(())
}

impl Tree {
    /// An equal tree.
    #[cycle(copy_tree)]
    pub fn copy(&self, alloc: Global) -> Result<Tree, Memory>
        ensures { IfOk result (λ t. t ≡ self.now) }
    {
        match self {
            Tree::File { name, desc } => Ok(Tree::File {
                name: name.copy(alloc)?,
                desc: desc.copy(alloc)?,
            }),
            Tree::Node { op, desc, inputs } => Ok(Tree::Node {
                op: *op,
                desc: desc.copy(alloc)?,
                inputs: copy_trees(alloc, inputs.as_slice())?,
            }),
        }
    }

    /// The descriptor at the root.
    pub fn desc(&self) -> &Desc
        ensures { result.now ≡ desc_of (seen_tree self.now) }
    {
        match self {
            Tree::File { desc, .. } => desc,
            Tree::Node { desc, .. } => desc,
        }
    }

    /// The inputs of the root, of which a file has none.
    pub fn inputs(&self) -> &[Tree]
        ensures { map seen_tree result.now ≡ inputs (seen_tree self.now) }
    {
        match self {
            Tree::File { .. } => &[],
            Tree::Node { inputs, .. } => inputs.as_slice(),
        }
    }

    /// What a rule sees of the tree where a stream stands for it.
    pub fn view(&self, alloc: Global, layout: &Layout, seen: &Mask) -> Result<Desc, Memory>
        ensures { IfOk result (λ d. d ≡ view layout.now seen.now (seen_tree self.now)) }
    {
        let view = self.desc().view(alloc, layout, seen)?;
        Ok(view)
    }

    /// The tree with the values of `wanted` at the properties of the mask in its root.
    pub fn ask(&self, alloc: Global, physical: &Mask, wanted: &Desc) -> Result<Tree, Memory>
        ensures { IfOk result (λ t. seen_tree t ≡ ask physical.now wanted.now (seen_tree self.now)) }
    {
        match self {
            Tree::File { name, desc } => Ok(Tree::File {
                name: name.copy(alloc)?,
                desc: desc.ask(alloc, physical, wanted)?,
            }),
            Tree::Node { op, desc, inputs } => Ok(Tree::Node {
                op: *op,
                desc: desc.ask(alloc, physical, wanted)?,
                inputs: copy_trees(alloc, inputs.as_slice())?,
            }),
        }
    }
}
