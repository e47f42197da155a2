// The conditions of refusal, each as a question on one declaration.
pub mod costs;
pub mod enforcers;
pub mod nodes;
pub mod rule_costs;
pub mod streams;
pub mod targets;
pub mod too_many;
pub mod two_names;
pub mod unknown_name;
pub mod wrong_arity;
pub mod wrong_type;
