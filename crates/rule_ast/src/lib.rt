//! The syntax of rule sets and queries, and what a rule set says by itself.
#![tactic(auto)]

mod builtins;
mod copying;
mod cost_forms;
mod costs_given;
mod descs;
mod expr;
mod kinds;
mod numbering;
mod parts;
mod query;
mod questions;
mod roles;
mod rule_set;
mod sides;
mod table;

pub use builtins::{builtin_of, builtin_result, is_builtin};
pub use copying::Copied;
pub use cost_forms::{cost_name, is_cost, is_cost_form};
pub use costs_given::cost_given;
pub use descs::{irule_descs, names_of, operator_descs, right_descs, stream_descs, trule_descs};
pub use expr::{BinOp, Expr, FoldKind, Stmt};
pub use kinds::{is_type, same_type, same_types, type_of_kind};
pub use numbering::stream_numbers;
pub use parts::{Algorithm, Body, Helper, IRule, Operator, Param, TRule};
pub use pr_value::Property;
pub use query::{Literal, QueryText, Setting};
pub use questions::{ReadQuestion, any_read, reads, reads_cost, reads_cost_of};
pub use roles::{PropertyClass, any_read_of_body, is_enforcer, is_physical};
pub use rule_set::Rules;
pub use sides::{AlgName, ImplIn, ImplSide, Left, LeftIn, Right, RightIn};
pub use table::Builtin;
