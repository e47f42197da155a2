// The printer: functions that put the tokens of a part behind the tokens so far, and one that
// writes the tokens with blanks between.
mod expr;
mod lists;
mod parts;
mod rules;
mod sides;
mod spaced;
mod tokens;

pub use rules::print_rules;
