//! Rows of operator trees: what rules make, ask and cost there, terms, memos and plans.
#![tactic(auto)]

pub mod equal;
pub mod listed;
pub mod steps;
pub mod terms;
pub mod trees;
