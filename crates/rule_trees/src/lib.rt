//! Operator trees of rule sets, what T-rules make of them, and what I-rules ask and cost there.
#![tactic(auto)]

mod i_steps;
mod laws;
mod making;
mod roots;
mod t_steps;
mod under;

pub use i_steps::{i_step, i_stream};
pub use laws::match_laws;
pub use t_steps::t_step;
pub use under::Under;
