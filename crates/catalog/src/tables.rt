ghost use Rattle.std.specs.Prelude.{◌≡◌, ◌&&◌};
ghost use Rattle.serde_json.specs.View.{view, members_view};
ghost use Rattle.pr_value.specs.Symbols.{is_name};
ghost use Rattle.value_json.specs.Errors.{ReadsBy};
ghost use Rattle.catalog.specs.Shape.{is_array, are_arrays};
ghost use Rattle.catalog.specs.Tables.{GivesTable, GivesTables};

use crate::by_name::{ByName, Named};
use crate::from_json::{FromMember, members_of};
use crate::rows::Rows;
use pr_value::{Memory, Symbol, is_name};
use serde_json::{Map, Value as Json};
use std::alloc::Global;
use std::marker::Model;
use value_json::{PartError, name_of};

/// A table of values.
#[derive(Drop)]
pub(crate) struct Table {
    name: Symbol,
    rows: Rows,
}

impl Model for Table {
    ghost use Rattle.catalog.specs.Contents as contents;

    ghost Value = { contents.Table };

    ghost view = { λ t. record { name = t.name; rows = t.rows } };
}

impl Named for Table {
    ghost name = { λ t. t.name };

    fn name(&self) -> &Symbol {
        &self.name
    }

    fn copy(&self, alloc: Global) -> Result<Table, Memory> {
        Ok(Table {
            name: self.name.copy(alloc)?,
            rows: self.rows.copy(alloc)?,
        })
    }
}

impl FromMember for Table {
    ghost gives = { GivesTable };

    ghost keeps_name = { λ n d t said. said.0 };

    fn from_member(alloc: Global, name: &str, json: &Json) -> Result<Table, PartError> {
        let name = name_of(alloc, name)?;
        let Some(items) = json.as_array() else {
            return Err(PartError::Misshapen);
        };
        let rows = Rows::from_items(alloc, items.as_slice())?;
        Ok(Table { name, rows })
    }
}

impl Table {
    pub(crate) fn rows(&self) -> &Rows
        ensures { result.now ≡ self.now.rows }
    {
        &self.rows
    }
}

fn is_named_array(name: &str, json: &Json) -> bool
    ensures { result ≡ (is_name name.now && is_array (view json.now)) }
{
    is_name(name.as_bytes()) && json.is_array()
}

/// Whether each member has a name and is an array.
pub(crate) fn are_arrays(members: &Map<String, Json>) -> bool
    ensures { result ≡ are_arrays (members_view members.now.entries) }
{
    for (name, json) in members.iter() {
        if !is_named_array(name.as_str(), json) {
            return false;
        }
    }
    true
}

/// The tables that are the members of an object, each of which has a name and is an array.
pub(crate) fn read_tables(
    alloc: Global,
    members: &Map<String, Json>,
) -> Result<ByName<Table>, PartError>
    ensures { ReadsBy (GivesTables (members_view members.now.entries)) result }
{
    members_of::<Table>(alloc, members)
}
