ghost use Rattle.std.specs.Prelude.{◌≡◌, List, map, true, IfOk, IfSome, IsTrue};
ghost use Rattle.std.specs.Bool.{OnFalse};
ghost use Rattle.std.specs.List.{IsDistinct, find};
ghost use Rattle.std.specs.List.Sorted.{IsPermutation, IsSortedBy, IsStrictlySortedBy};
ghost use Rattle.std.specs.Option.{option_copied};
ghost use Rattle.std.specs.Ordering.{is_lt};
ghost use Rattle.serde_json.specs.View.{view, items_view};
ghost use Rattle.pr_value.specs.SymbolSets.{same_list};
ghost use Rattle.pr_value.specs.Values.{is_capped};
ghost use Rattle.catalog.specs.Contents.{value_at};
ghost use Rattle.value_json.specs.Errors.{ReadsAs, ReadsBy};
ghost use Rattle.catalog.specs.Keys.{compare_keys};
ghost use Rattle.catalog.specs.Shape.{keys_in, row_in, rows_in};

use pr_value::{Memory, Symbol, Value, copy_symbols};
use serde_json::Value as Json;
use std::alloc::Global;
use std::cmp::Ordering;
use std::marker::Model;
use value_json::{FromItem, PartError, items_of, list_of, only_two_members, value_of};

/// A row of a table.
#[derive(Drop)]
pub(crate) struct Row {
    keys: Vec<Symbol>,
    value: Value,
}

impl Model for Row {
    ghost use Rattle.std.specs.Prelude.{◌≡◌, true};
    ghost use Rattle.pr_value.specs.Values.{is_capped};
    ghost use Rattle.catalog.specs.Contents as contents;

    ghost Value = { contents.Row };

    ghost view = { λ r. record { keys = r.keys.items; value = r.value } };

    ghost invariant = { λ r. is_capped r.value ≡ true };
}

impl Row {
    fn copy(&self, alloc: Global) -> Result<Row, Memory>
        ensures { IfOk result (λ r. r ≡ self.now) }
    {
        Ok(Row {
            keys: copy_symbols(alloc, self.keys.as_slice())?,
            value: self.value.copy(alloc)?,
        })
    }
}

/// One to four symbols.
fn keys_of(alloc: Global, json: &Json) -> Result<Vec<Symbol>, PartError>
    ensures { ReadsAs (λ v. v.items) result (keys_in (view json.now)) }
{
    let keys = list_of(alloc, json)?;
    if keys.is_empty() || keys.len() > 4 {
        return Err(PartError::Misshapen);
    }
    Ok(keys)
}

impl FromItem for Row {
    ghost said = { row_in };

    fn from_item(alloc: Global, json: &Json) -> Result<Row, PartError> {
        let Some(members) = json.as_object() else {
            return Err(PartError::Misshapen);
        };
        let Some((keys, value)) = only_two_members(members, "keys", "value") else {
            return Err(PartError::Misshapen);
        };
        let keys = keys_of(alloc, keys)?;
        let value = value_of(alloc, value)?;
        Ok(Row { keys, value })
    }
}

/// The order of the rows' keys, by bytes.
fn by_keys(one: &Row, other: &Row) -> Ordering
    ensures { result ≡ compare_keys one.now.keys other.now.keys }
{
    one.keys.as_slice().cmp(&other.keys.as_slice())
}

fn in_order(rows: Vec<Row>) -> Result<Vec<Row>, Memory>
    ensures { IfOk result (λ v. IsPermutation rows.items v.items
        × IsSortedBy (λ x y. is_lt (compare_keys x.keys y.keys)) v.items) }
{
    let mut sorted = rows;
    sorted.sort_by(|one, other| by_keys(one, other))?;
    Ok(sorted)
}

/// Whether no two neighbours have equal keys.
fn differ(rows: &[Row]) -> bool
    requires { IsSortedBy (λ x y. is_lt (compare_keys x.keys y.keys)) rows.now }
    ensures rise { IsTrue result → IsStrictlySortedBy compare_keys (map (λ r. r.keys) rows.now) }
    ensures equal { OnFalse result (¬ (IsDistinct same_list (map (λ r. r.keys) rows.now))) }
{
    rows.is_sorted_by(|one, other| by_keys(one, other).is_lt())
}

fn find_row<'a>(rows: &'a [Row], keys: &[Symbol]) -> Option<&'a Row>
    requires { IsStrictlySortedBy compare_keys (map (λ r. r.keys) rows.now) }
    ensures { option_copied result ≡ find (λ r. same_list r.keys keys.now) rows.now }
{
    let compare = |row: &Row| -> Ordering
        ensures { result ≡ compare_keys row.now.keys keys.entry.now }
    { row.keys.as_slice().cmp(&keys) };
    match rows.binary_search_by(compare) {
        Ok(place) => Some(&rows[place]),
        Err(_) => None,
    }
}

/// The rows of a table. Their keys differ, and ascend by bytes.
#[derive(Drop)]
pub(crate) struct Rows {
    rows: Vec<Row>,
}

impl Model for Rows {
    ghost use Rattle.std.specs.Prelude.{List, map};
    ghost use Rattle.std.specs.List.Sorted.{IsStrictlySortedBy};
    ghost use Rattle.catalog.specs.Contents as contents;
    ghost use Rattle.catalog.specs.Keys.{compare_keys};

    ghost Value = { List contents.Row };

    ghost view = { λ r. r.rows.items };

    ghost invariant = { λ r. IsStrictlySortedBy compare_keys (map (λ s. s.keys) r.rows.items) };
}

impl Rows {
    /// The rows that are the items of an array.
    pub(crate) fn from_items(alloc: Global, items: &[Json]) -> Result<Rows, PartError>
        ensures { ReadsBy (λ rows. rows_in (items_view items.now) ≡ rows) result }
    {
        let rows = in_order(items_of::<Row>(alloc, items)?)?;
        if !differ(rows.as_slice()) {
            return Err(PartError::Misshapen);
        }
        Ok(Rows { rows })
    }

    /// The value at some keys. A number is at most 10^18.
    pub(crate) fn get(&self, keys: &[Symbol]) -> Option<&Value>
        ensures value { option_copied result ≡ value_at self.now keys.now }
        ensures capped { IfSome result (λ v. is_capped v.now ≡ true) }
    {
        let row = find_row(self.rows.as_slice(), keys)?;
        Some(&row.value)
    }

    /// Equal rows.
    pub(crate) fn copy(&self, alloc: Global) -> Result<Rows, Memory>
        ensures { IfOk result (λ r. r ≡ self.now) }
    {
        let mut rows = Vec::with_capacity(alloc, self.rows.len())?;
        for row in self.rows.as_slice() {
            rows.push(row.copy(alloc)?)?;
        }
        Ok(Rows { rows })
    }
}
