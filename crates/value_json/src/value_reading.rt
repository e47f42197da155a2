// Values, from the values of JSON.
ghost use Rattle.std.specs.Prelude.{◌≡◌};
ghost use Rattle.serde_json.specs.Data.{number, object, array};
ghost use Rattle.serde_json.specs.View.{view, number_view, items_view, members_view};
ghost use Rattle.value_json.specs.Errors.{Reads, ReadsAs};
ghost use Rattle.value_json.specs.Parts.{symbol_in};
ghost use Rattle.value_json.specs.Values.{symbols_in, list_in, value_in};

use crate::items::{FromItem, items_of};
use crate::members::only_member;
use crate::part_error::PartError;
use pr_value::{CAP, SymList, SymSet, Symbol, Value};
use serde_json::{Map, Number, Value as Json};
use std::alloc::Global;

impl FromItem for Symbol {
    ghost said = { symbol_in };

    fn from_item(alloc: Global, json: &Json) -> Result<Symbol, PartError> {
        let Some(text) = json.as_str() else {
            return Err(PartError::Misshapen);
        };
        Ok(Symbol::new(alloc, text.as_bytes())?)
    }
}

/// The symbols of an array's items.
pub fn symbols_of(alloc: Global, items: &[Json]) -> Result<Vec<Symbol>, PartError>
    ensures { ReadsAs (λ v. v.items) result (symbols_in (items_view items.now)) }
{
    items_of::<Symbol>(alloc, items)
}

/// The symbols of an array.
pub fn list_of(alloc: Global, json: &Json) -> Result<Vec<Symbol>, PartError>
    ensures { ReadsAs (λ v. v.items) result (list_in (view json.now)) }
{
    let Some(items) = json.as_array() else {
        return Err(PartError::Misshapen);
    };
    symbols_of(alloc, items.as_slice())
}

fn number_value(json: &Number) -> Result<Value, PartError>
    ensures { Reads result (value_in (number (number_view json.now))) }
{
    let Some(n) = json.as_u64() else {
        return Err(PartError::Misshapen);
    };
    if n > CAP {
        return Err(PartError::Misshapen);
    }
    Ok(Value::Num(n))
}

fn set_value(alloc: Global, members: &Map<String, Json>) -> Result<Value, PartError>
    ensures { Reads result (value_in (object (members_view members.now.entries))) }
{
    let Some(json) = only_member(members, "set") else {
        return Err(PartError::Misshapen);
    };
    let symbols = list_of(alloc, json)?;
    Ok(Value::Set(SymSet::from_symbols(alloc, symbols)?))
}

fn list_value(alloc: Global, items: &[Json]) -> Result<Value, PartError>
    ensures { Reads result (value_in (array (items_view items.now))) }
{
    let symbols = symbols_of(alloc, items)?;
    Ok(Value::List(SymList::from_symbols(symbols)))
}

/// A value of a property or of a row.
pub fn value_of(alloc: Global, json: &Json) -> Result<Value, PartError>
    ensures { Reads result (value_in (view json.now)) }
{
    match json {
        Json::Null => Err(PartError::Misshapen),
        Json::Bool(b) => Ok(Value::Truth(*b)),
        Json::Number(number) => number_value(number),
        Json::String(text) => Ok(Value::Sym(Symbol::new(alloc, text.as_bytes())?)),
        Json::Array(items) => list_value(alloc, items.as_slice()),
        Json::Object(members) => set_value(alloc, members),
    }
}
