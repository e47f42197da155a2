//! The operator tree of a query, and why a query is refused.
#![tactic(auto)]

mod building;
mod conditions;
mod files;
mod literals;
mod operators;
mod parts;
mod refusal;
mod refusing;

pub use building::build;
pub use files::{is_file_fit, listed_desc};
pub use refusal::QueryRefusal;
