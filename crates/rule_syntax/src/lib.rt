//! The readers of rule sets and queries, and the printer of rule sets.
#![tactic(auto)]

mod error;
mod laws;
mod printing;
mod reading;

pub use error::SyntaxError;
pub use laws::spelling_laws;
pub use printing::print_rules;
pub use reading::{read_query, read_rules};
