//! The operator trees of queries, and what rules make of trees, ask of them and cost there.
#![tactic(auto)]

pub use query_build::{QueryRefusal, build, is_file_fit, listed_desc};
pub use rule_trees::{Under, i_step, i_stream, match_laws, t_step};
pub use tree_terms::{
    Dressing, TreeLabel, TreeSteps, add_tree, dressed_laws, equality_laws, file_label, goal_laws,
    node_label,
};
