//! A plan of least cost for an operator tree: a plain recursion over the tree and what is asked of
//! its parts.
#![tactic(auto)]

mod equality;
mod found;
mod search;

pub use search::best_plan;
