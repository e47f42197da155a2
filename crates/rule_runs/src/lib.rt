//! What rules do over their slots, and what their sides match.
#![tactic(auto)]

mod irules;
mod matching;
mod scopes;
mod sides;
mod slots;
mod trules;

pub use irules::run_irule;
pub use matching::{Matched, Roots, find_match};
pub use scopes::{desc_of, env_over};
pub use sides::{Side, left_side, operator_at, right_side};
pub use slots::Slots;
pub use trules::run_trule;
