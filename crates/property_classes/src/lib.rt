//! What the properties of a rule set are for.
#![tactic(auto)]

mod classes;
mod reading;

pub use classes::Classes;
pub use rule_ast::PropertyClass;
