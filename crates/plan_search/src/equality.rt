// Whether trees are equal.
ghost use Rattle.std.specs.Prelude.{◌≡◌, ◌↔◌, map, IsTrue};
ghost use Rattle.descriptor_types.specs.Labels.{seen_tree};

use descriptor_types::Tree;

/// Whether the trees have the same operators, files and descriptors. It takes no memory.
#[cycle(same_tree)]
pub(crate) fn same_tree(t: &Tree, other: &Tree) -> bool
    ensures { IsTrue result ↔ (seen_tree t.now ≡ seen_tree other.now) }
{
    match (t, other) {
        (
            Tree::File { name, desc },
            Tree::File {
                name: other_name,
                desc: other_desc,
            },
        ) => name == other_name && desc.same(other_desc),
        (
            Tree::Node { op, desc, inputs },
            Tree::Node {
                op: other_op,
                desc: other_desc,
                inputs: other_inputs,
            },
        ) => {
            if op != other_op || !desc.same(other_desc) {
                return false;
            }
            same_trees(inputs.as_slice(), other_inputs.as_slice())
        }
        _ => false,
    }
}

#[cycle(same_tree)]
fn same_trees(ts: &[Tree], others: &[Tree]) -> bool
    ensures { IsTrue result ↔ (map seen_tree ts.now ≡ map seen_tree others.now) }
{
    if ts.len() != others.len() {
        return false;
    }
    for (i, tree) in ts.iter().enumerate() {
        if !same_tree(tree, &others[i]) {
            return false;
        }
    }
    true
}
