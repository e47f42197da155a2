// The readers: functions from the tokens that are left to what they begin with and the tokens
// behind it.
mod expr;
mod lists;
mod parts;
mod query;
mod rules;
mod settings;
mod sides;
mod stop;
mod tokens;

pub use query::read_query;
pub use rules::read_rules;
