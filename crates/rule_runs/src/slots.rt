ghost use Rattle.std.specs.Prelude.{◌≡◌, ◌++◌, [], IfOk, OnOk};
ghost use Rattle.rule_runs.specs.Runs as spec;
ghost use Rattle.rule_runs.specs.Slotting.{all_slots};

use descriptor_types::{Desc, Layout};
use pr_value::{Items, Memory};
use std::alloc::Global;

/// What a rule sees of what its left side matched: the descriptors of nodes, whole, the root first,
/// and the views of streams, both in the order of the text.
#[derive(Drop)]
pub struct Slots {
    pub nodes: Items<Desc>,
    pub streams: Items<Desc>,
}

/// Appends copies of descriptors.
pub(crate) fn push_copies(
    alloc: Global,
    descs: &[Desc],
    out: &mut Items<Desc>,
) -> Result<(), Memory>
    ensures { OnOk result (out.new ≡ out.old ++ descs.now) }
{
    for desc in descs {
        let copy = desc.copy(alloc)?;
        out.push(copy)?;
    }
    Ok(())
}

impl Slots {
    /// Slots of nothing, which take no memory yet.
    pub fn new(alloc: Global) -> Slots
        ensures nodes { result.nodes ≡ [] }
        ensures streams { result.streams ≡ [] }
    {
        Slots {
            nodes: Items::new(alloc),
            streams: Items::new(alloc),
        }
    }

    /// Copies of the nodes' descriptors, and then of the streams' views.
    pub(crate) fn all(&self, alloc: Global) -> Result<Items<Desc>, Memory>
        ensures { IfOk result (λ ds. ds ≡ all_slots self.now) }
    {
        let mut all = Items::new(alloc);
        push_copies(alloc, self.nodes.as_slice(), &mut all)?;
        push_copies(alloc, self.streams.as_slice(), &mut all)?;
        Ok(all)
    }

    /// A copy of the descriptor of the root, or an empty one where there is no node.
    pub(crate) fn root(&self, alloc: Global) -> Result<Desc, Memory>
        ensures { IfOk result (λ d. d ≡ spec.root_of self.now.nodes) }
    {
        match self.nodes.as_slice().first() {
            Some(desc) => desc.copy(alloc),
            None => Desc::plain(alloc, &Layout::new(alloc)),
        }
    }
}
