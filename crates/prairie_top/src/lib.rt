//! The top call: from words to an answer.
#![tactic(auto)]

mod laws;
mod messages;
mod reading;
mod source;
mod stage;
mod status;
mod task;
mod top;

pub use laws::{outcome_laws, printing_laws};
pub use status::Status;
pub use top::run;
