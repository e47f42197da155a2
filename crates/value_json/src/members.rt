// Objects of exactly one or two members.
ghost use Rattle.std.specs.Prelude.{◌≡◌, option_map, string_bytes};
ghost use Rattle.serde_json.specs.View.{view, members_view};
ghost use Rattle.value_json.specs.Parts.{only, only_two};

use serde_json::{Map, Value as Json};

/// The value of the only member, where it has this name.
pub fn only_member<'a>(members: &'a Map<String, Json>, name: &str) -> Option<&'a Json>
    ensures { option_map (λ v. view v.now) result ≡ only name.now (members_view members.now.entries) }
{
    let mut rest = members.iter();
    let (key, value) = rest.next()?;
    if rest.next().is_some() || key.as_str() != name {
        return None;
    }
    Some(value)
}

/// The values of the only two members, where they have these names, in the order of the bytes.
pub fn only_two_members<'a>(
    members: &'a Map<String, Json>,
    first: &str,
    second: &str,
) -> Option<(&'a Json, &'a Json)>
    ensures { option_map (λ v. (view v.0.now, view v.1.now)) result
        ≡ only_two first.now second.now (members_view members.now.entries) }
{
    let mut rest = members.iter();
    let (one, value) = rest.next()?;
    let (other, value_of_other) = rest.next()?;
    if rest.next().is_some() || one.as_str() != first || other.as_str() != second {
        return None;
    }
    Some((value, value_of_other))
}
