//! Values of the language and lists of symbols, from JSON.
#![tactic(auto)]

mod items;
mod members;
mod names;
mod part_error;
mod value_reading;

pub use items::{FromItem, items_of};
pub use members::{only_member, only_two_members};
pub use names::name_of;
pub use part_error::PartError;
pub use value_reading::{list_of, symbols_of, value_of};
