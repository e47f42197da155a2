//! Expressions, their classes, and lines about them.
#![tactic(auto)]

mod adding;
mod counts;
mod expr;
mod homes;
mod index;
mod learn;
mod lines;
mod members;
mod memo;
mod merge;
mod reach;
mod rebuild;
mod settle;
mod start;
mod union;

pub use counts::Counts;
pub use expr::{Expr, Join, Known};
pub use homes::{home_of, known_at};
pub use lines::{chain, inside, still, turn};
pub use memo::{Memo, MemoError};
