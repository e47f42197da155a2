//! The least costs of goals whose alternatives may lead back to them.
#![tactic(auto)]

mod falling;
mod falls;
mod lowering;
mod note;
mod reached;
mod uses;
mod way;

pub use falling::fall;
pub use falls::Falls;
