ghost use Rattle.value_json.specs.Errors.{Reads};
ghost use Rattle.value_json.specs.Parts.{name_in};

use crate::part_error::PartError;
use pr_value::{Symbol, is_name};
use std::alloc::Global;

/// The name that a text is.
pub fn name_of(alloc: Global, text: &str) -> Result<Symbol, PartError>
    ensures { Reads result (name_in text.now) }
{
    if !is_name(text.as_bytes()) {
        return Err(PartError::Misshapen);
    }
    Ok(Symbol::new(alloc, text.as_bytes())?)
}
