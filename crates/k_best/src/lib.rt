//! The cheapest solutions of a goal, of which no two show the same, over any table of moves.
#![tactic(auto)]

mod best;
mod choosing;
mod faces;
mod index;
mod inputs;
mod lists;
mod picking;
mod putting;
mod same;

pub use best::{Listed, best_of};
pub use faces::Faces;
