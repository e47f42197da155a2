//! The least cost of a goal, over any table of moves.
#![tactic(auto)]

mod costs;
mod moves;
mod searching;
mod solution;
mod solving;
mod table;

pub use costs::cost_at_bounds;
pub use moves::{Choices, Moves, UnfoldError};
pub use searching::{FindError, Found, find};
pub use solution::Solution;
pub use solving::solve;
pub use table::Table;
