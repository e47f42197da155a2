//! The enforcers of a rule set, and the rules of its operators.
#![tactic(auto)]

mod enforcers;

pub use enforcers::{Enforcers, OperatorRules};
