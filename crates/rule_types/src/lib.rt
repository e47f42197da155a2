//! Whether rule sets are accepted, and whether their expressions are well typed.
#![tactic(auto)]

mod acceptance;
mod accepted;
mod builtin_counts;
mod calls;
mod conditions;
mod context;
mod declaration;
mod declarations;
mod declared;
mod folds;
mod helpers;
mod holds;
mod laws;
mod names;
mod nodes;
mod numbers;
mod operators;
mod param_types;
mod refusal;
mod refusing;
mod roles;
mod scope_names;
mod scopes;
mod sides;
mod statements;
mod typing;
mod uses;

pub use acceptance::{AcceptError, accept};
pub use accepted::Accepted;
pub use context::Context;
pub use declaration::Declaration;
pub use helpers::are_typed;
pub use refusal::{RefusalKind, Refused};
pub use statements::{are_typed_stmts, is_typed_stmt};
pub use typing::type_of;
