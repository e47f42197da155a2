//! Derivations of equations between trees: terms, steps of rules, and a log of justified lines.
#![tactic(auto)]

mod label;
mod laws;
mod lines;
mod log;
mod numbers;
mod reason;
mod slice;
mod steps;
mod terms;

pub use label::Label;
pub use laws::{joined_laws, label_laws};
pub use log::Log;
pub use numbers::Numbers;
pub use reason::{Line, PushError, Reason};
pub use steps::Steps;
pub use terms::{Term, Terms};
