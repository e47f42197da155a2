//! Tables of rows: their members, the texts that they name, and what came of them.
#![tactic(auto)]

pub mod members;
pub mod report;
pub mod texts;
pub mod trouble;
