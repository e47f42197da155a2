// Lists of parts, from the arrays of JSON.
ghost use Rattle.std.specs.Prelude.{◌≡◌, Option};
ghost use Rattle.serde_json.specs.Data.{Data};
ghost use Rattle.serde_json.specs.View.{view};
ghost use Rattle.value_json.specs.Errors.{Reads, ReadsEach};

use crate::part_error::PartError;
use serde_json::Value as Json;
use std::alloc::Global;

/// What an item of an array is read as.
pub trait FromItem: Drop {
    ghost said: { Data → Option Self };

    fn from_item(alloc: Global, json: &Json) -> Result<Self, PartError>
        ensures { Reads result (said (view json.now)) };
}

/// Each item.
pub fn items_of<T: FromItem>(alloc: Global, items: &[Json]) -> Result<Vec<T>, PartError>
    ensures { ReadsEach (λ v. v.items) (λ v o. T.said (view v) ≡ o) items.now result }
{
    let mut read = Vec::with_capacity(alloc, items.len())?;
    for item in items {
        read.push(T::from_item(alloc, item)?)?;
    }
    Ok(read)
}
