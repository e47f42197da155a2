//! Numbers up to a cap, symbols, sets and lists of them, values, and the tokens of a text.
#![tactic(auto)]

mod capped;
mod halves;
mod kind;
mod memory;
mod printing;
mod property;
mod repeats;
mod sym_list;
mod sym_set;
mod symbol;
mod symbol_order;
mod symbols;
mod text;
mod token;
mod token_text;
mod tokens;
mod value;
mod value_equality;
mod value_parts;

pub use capped::{CAP, cap_add, cap_div, cap_log2, cap_mul, cap_sub};
pub use halves::bisect;
pub use kind::Kind;
pub use memory::Memory;
pub use property::Property;
pub use repeats::{are_distinct, first_repeated};
pub use sqlite_items::{Boxed, Items};
pub use sym_list::SymList;
pub use sym_set::SymSet;
pub use symbol::{Symbol, SymbolError, is_digit, is_letter, is_name, is_word_byte};
pub use symbols::{contains, copy_symbols, same_symbols};
pub use text::Text;
pub use token::{Mark, Token};
pub use token_text::push_token;
pub use tokens::Tokens;
pub use value::Value;
pub use value_parts::{members_in, number_in, symbol_in, truth_in};
