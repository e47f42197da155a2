//! Plans: what they implement, what they cost, and their text.
#![tactic(auto)]

mod costing;
mod implementing;
mod plan;
mod text;

pub use costing::cost;
pub use implementing::{each_asked, implements, plan_by};
pub use plan::Plan;
pub use text::plan_text;
