// What the members of tables and rows say. What a row lacks is that of its table.
use crate::trouble::Trouble;
use serde_json::Value as Json;

/// The items of an array; none where there is no such member.
pub fn items<'a>(json: &'a Json, name: &str) -> &'a [Json] {
    match json.get(name) {
        Some(found) => array(found),
        None => &[],
    }
}

/// The two strings of an array.
pub fn pair<'a>(json: &'a Json, what: &'static str) -> Result<(&'a str, &'a str), Trouble> {
    let [first, second] = array(json) else {
        return Err(Trouble::Misshapen(what));
    };
    Ok((string(first, what)?, string(second, what)?))
}

pub fn array(json: &Json) -> &[Json] {
    match json.as_array() {
        Some(items) => items.as_slice(),
        None => &[],
    }
}

/// The row's member, or else the table's.
pub fn said<'a>(row: &'a Json, table: &'a Json, name: &str) -> Option<&'a Json> {
    match row.get(name) {
        Some(found) => Some(found),
        None => table.get(name),
    }
}

pub fn number(json: &Json, what: &'static str) -> Result<u64, Trouble> {
    match json.as_u64() {
        Some(n) => Ok(n),
        None => Err(Trouble::Misshapen(what)),
    }
}

pub fn string<'a>(json: &'a Json, what: &'static str) -> Result<&'a str, Trouble> {
    match json.as_str() {
        Some(text) => Ok(text),
        None => Err(Trouble::Misshapen(what)),
    }
}

/// The number of the row's member, or else the table's, if there is one.
pub fn said_number(row: &Json, table: &Json, name: &'static str) -> Result<Option<u64>, Trouble> {
    match said(row, table, name) {
        Some(json) => {
            let n = number(json, name)?;
            Ok(Some(n))
        }
        None => Ok(None),
    }
}

/// The string of the row's member, or else the table's.
pub fn said_string<'a>(
    row: &'a Json,
    table: &'a Json,
    name: &'static str,
) -> Result<&'a str, Trouble> {
    match said(row, table, name) {
        Some(json) => string(json, name),
        None => Err(Trouble::Misshapen(name)),
    }
}
