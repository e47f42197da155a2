ghost use Rattle.std.specs.Cmp.{decided, partial_equiv_from_equiv};
ghost use Rattle.std.specs.Hash.{same_Alike};
ghost use Rattle.std.specs.Prelude.{◌≡◌, ◌↔◌, IsTrue, IfOk};
ghost use Rattle.tree_terms.specs.TreeLabels as spec;
ghost use Rattle.tree_terms.specs.TreeLabelLaws.{same_label-Decides};

use derivation::Label;
use descriptor_types::Desc;
use pr_value::{Memory, Symbol};
use std::alloc::Global;
use std::hash::{Hash, Hasher};

/// A file, or an operator by its place of declaration from 0, with its descriptor, the view of that,
/// and whether the operator is an enforcer.
#[derive(Drop)]
pub enum TreeLabel {
    File {
        name: Symbol,
        desc: Desc,
        view: Desc,
    },
    Node {
        op: usize,
        desc: Desc,
        view: Desc,
        enforcer: bool,
    },
}

impl TreeLabel {
    /// The descriptor as it is seen where a stream stands for the tree.
    pub fn view(&self) -> &Desc
        ensures { result.now ≡ spec.view_of self.now }
    {
        match self {
            TreeLabel::File { view, .. } => view,
            TreeLabel::Node { view, .. } => view,
        }
    }
}

/// Labels are equal exactly where they are the same.
impl PartialEq for TreeLabel {
    ghost eq = { spec.same_label };

    ghost laws = { partial_equiv_from_equiv (decided spec.same_label same_label-Decides) };

    fn eq(&self, other: &TreeLabel) -> bool {
        match (self, other) {
            (
                TreeLabel::File { name, desc, view },
                TreeLabel::File {
                    name: other_name,
                    desc: other_desc,
                    view: other_view,
                },
            ) => *name == *other_name && (desc.same(other_desc) && view.same(other_view)),
            (
                TreeLabel::Node {
                    op,
                    desc,
                    view,
                    enforcer,
                },
                TreeLabel::Node {
                    op: other_op,
                    desc: other_desc,
                    view: other_view,
                    enforcer: other_enforcer,
                },
            ) => {
                *op == *other_op
                    && (desc.same(other_desc)
                        && (view.same(other_view) && *enforcer == *other_enforcer))
            }
            _ => false,
        }
    }
}

impl Eq for TreeLabel {
    ghost laws = { decided spec.same_label same_label-Decides };
}

impl Hash for TreeLabel {
    ghost hash_input = { spec.hashed_label };

    ghost respects_eq = { (same_Alike spec.hashed_label same_label-Decides).fed };

    fn hash<H: Hasher>(&self, state: &mut H) {
        match self {
            TreeLabel::File { name, desc, view } => {
                0u8.hash(state);
                name.hash(state);
                desc.hash(state);
                view.hash(state);
            }
            TreeLabel::Node {
                op,
                desc,
                view,
                enforcer,
            } => {
                1u8.hash(state);
                op.hash(state);
                desc.hash(state);
                view.hash(state);
                enforcer.hash(state);
            }
        }
    }
}

impl Label for TreeLabel {
    ghost use Rattle.tree_terms.specs.TreeLabelLaws.{same_label-equal};

    ghost same_view = { spec.same_views };

    ghost on_edge = { spec.is_on_edge };

    ghost same_is = { same_label-equal };

    fn same(&self, other: &TreeLabel) -> bool {
        *self == *other
    }

    fn same_view(&self, other: &TreeLabel) -> bool {
        self.view().same(other.view())
    }

    fn on_edge(&self) -> bool {
        match self {
            TreeLabel::File { .. } => false,
            TreeLabel::Node { enforcer, .. } => *enforcer,
        }
    }

    fn copy(&self, alloc: Global) -> Result<TreeLabel, Memory> {
        match self {
            TreeLabel::File { name, desc, view } => Ok(TreeLabel::File {
                name: name.copy(alloc)?,
                desc: desc.copy(alloc)?,
                view: view.copy(alloc)?,
            }),
            TreeLabel::Node {
                op,
                desc,
                view,
                enforcer,
            } => Ok(TreeLabel::Node {
                op: *op,
                desc: desc.copy(alloc)?,
                view: view.copy(alloc)?,
                enforcer: *enforcer,
            }),
        }
    }
}
