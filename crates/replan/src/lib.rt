//! A table that is carried from one table of moves to another.
#![tactic(auto)]

mod carrying;
mod forms;
mod matching;
mod ranked;

pub use carrying::carry;
pub use forms::Forms;
