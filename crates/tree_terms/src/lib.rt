//! Labels that hold their views, the T-rules as steps on terms, and which trees are equal.
#![tactic(auto)]

mod adding;
mod dressed;
mod dressing;
mod equality;
mod goals;
mod labels;
mod roots;
mod term_fits;
mod term_making;
mod tree_steps;

pub use adding::add_tree;
pub use dressed::dressed_laws;
pub use dressing::{Dressing, file_label, node_label};
pub use equality::equality_laws;
pub use goals::goal_laws;
pub use labels::TreeLabel;
pub use tree_steps::TreeSteps;
