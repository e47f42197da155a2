// Lists of parts, from the objects of JSON.
ghost use Rattle.std.specs.Prelude.{◌≡◌, Option, Some, string_bytes};
ghost use Rattle.serde_json.specs.Data.{Data};
ghost use Rattle.serde_json.specs.View.{view};
ghost use Rattle.pr_value.specs.Symbols.{Symbol as Name};
ghost use Rattle.value_json.specs.Errors.{ReadsBy, ReadsEach};

use crate::by_name::{ByName, Named};
use serde_json::{Map, Value as Json};
use std::alloc::Global;
use value_json::PartError;

/// What a member of an object is read as.
pub(crate) trait FromMember: Named {
    ghost gives: { Name → Data → Option Self → Type 0 };

    fn from_member(alloc: Global, name: &str, json: &Json) -> Result<Self, PartError>
        ensures { ReadsBy (gives name.now (view json.now)) result };

    ghost keeps_name: { (n : Name) (d : Data) (x : Self) → gives n d (Some x) → Self.name x ≡ n };
}

/// Each member. They come with names that differ and ascend.
pub(crate) fn members_of<T: FromMember>(
    alloc: Global,
    members: &Map<String, Json>,
) -> Result<ByName<T>, PartError>
    ensures { ReadsEach (λ v. v)
        (λ e o. T.gives (string_bytes e.0) (view e.1) o) members.now.entries result }
{
    let mut read = Vec::new(alloc);
    for (name, member) in members.iter() {
        let item = T::from_member(alloc, name.as_str(), member)?;
        read.push(item)?;
    }
    Ok(ByName::from_sorted(read))
}
