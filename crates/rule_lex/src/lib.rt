//! The tokens of rule and query texts.
#![tactic(auto)]

mod classes;
mod error;
mod gap;
mod laws;
mod lexer;
mod marks;
mod runs;

pub use error::LexError;
pub use laws::token_laws;
pub use lexer::tokens;
