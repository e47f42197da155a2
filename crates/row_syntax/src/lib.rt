//! Rows of tokens, texts that are read and printed, values, and roles.
#![tactic(auto)]

pub mod prints;
pub mod reads;
pub mod roles;
pub mod tokens;
pub mod values;
