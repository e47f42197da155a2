//! The values of expressions, the run of statements, and cost forms.
#![tactic(auto)]

mod application;
mod arguments;
mod collections;
mod cost_forms;
mod env;
mod evaluation;
mod expressions;
mod folds;
mod frames;
mod held;
mod helpers;
mod laws;
mod machine;
mod operators;
mod reading;
mod statements;
mod stepping;

pub use cost_forms::{CostForm, IStep, cost_form, cost_laws};
pub use env::Env;
pub use expressions::eval;
pub use laws::env_laws;
pub use statements::run_statements;
