// Values of fields.
ghost use Rattle.std.specs.Prelude.{◌≡◌, ◌++◌, true, IfOk, OnOk};
ghost use Rattle.serde_json.specs.View.{view, number_view, members_view};
ghost use Rattle.pr_value.specs.Values.{is_capped};
ghost use Rattle.value_json.specs.Errors.{Reads};
ghost use Rattle.value_json.specs.Values as plain;
ghost use Rattle.bound_certificate.specs.Fields.{value_fine};
ghost use Rattle.bound_certificate.specs.Shape.{number_value, sym_in, set_in, symbols_in, tagged_in, tagged_value, value_in};
ghost use Rattle.bound_certificate.specs.Written.{tagged, value_data, value_symbols};

use crate::form::Form;
use crate::part::{Part, push_all, read_list, write_list};
use pr_value::{CAP, Memory, SymList, SymSet, Symbol, Value};
use serde_json::{Map, Number, Value as Json, put};
use std::alloc::Global;
use value_json::{PartError, only_member, value_of as plain_value_of};

fn number_value(json: &Number) -> Result<Value, PartError>
    ensures { Reads result (number_value (number_view json.now)) }
{
    let Some(n) = json.as_u64() else {
        return Err(PartError::Misshapen);
    };
    if n > CAP {
        return Err(PartError::Misshapen);
    }
    Ok(Value::Num(n))
}

fn sym_value(alloc: Global, form: &Form, json: &Json) -> Result<Value, PartError>
    ensures { Reads result (sym_in form.now (view json.now)) }
{
    Ok(Value::Sym(Symbol::read(alloc, form, json)?))
}

fn set_value(alloc: Global, form: &Form, json: &Json) -> Result<Value, PartError>
    ensures { Reads result (set_in form.now (view json.now)) }
{
    let members = read_list::<Symbol>(alloc, form, json)?;
    Ok(Value::Set(SymSet::from_symbols(alloc, members)?))
}

fn list_value(alloc: Global, form: &Form, json: &Json) -> Result<Value, PartError>
    ensures { Reads result (symbols_in form.now (view json.now)) }
{
    let members = read_list::<Symbol>(alloc, form, json)?;
    Ok(Value::List(SymList::from_symbols(members)))
}

fn tagged_members(
    alloc: Global,
    form: &Form,
    members: &Map<String, Json>,
) -> Result<Value, PartError>
    ensures { Reads result (tagged_in form.now (members_view members.now.entries)) }
{
    if let Some(json) = only_member(members, "sym") {
        return sym_value(alloc, form, json);
    }
    if let Some(json) = only_member(members, "set") {
        return set_value(alloc, form, json);
    }
    match only_member(members, "list") {
        Some(json) => list_value(alloc, form, json),
        None => Err(PartError::Misshapen),
    }
}

fn tagged_value(alloc: Global, form: &Form, json: &Json) -> Result<Value, PartError>
    ensures { Reads result (tagged_value form.now (view json.now)) }
{
    match json {
        Json::Null => Err(PartError::Misshapen),
        Json::Bool(b) => Ok(Value::Truth(*b)),
        Json::Number(number) => number_value(number),
        Json::String(_) => Err(PartError::Misshapen),
        Json::Array(_) => Err(PartError::Misshapen),
        Json::Object(members) => tagged_members(alloc, form, members),
    }
}

/// A value whose symbols are spelled.
pub(crate) fn spelled_value(alloc: Global, json: &Json) -> Result<Value, PartError>
    ensures read { Reads result (plain.value_in (view json.now)) }
    ensures capped { IfOk result (λ v. is_capped v ≡ true) }
{
    plain_value_of(alloc, json)
}

/// A value.
pub(crate) fn value_of(alloc: Global, form: &Form, json: &Json) -> Result<Value, PartError>
    ensures read { Reads result (value_in form.now (view json.now)) }
    ensures capped { IfOk result (λ v. is_capped v ≡ true) }
{
    match form {
        Form::Spelled => spelled_value(alloc, json),
        Form::Placed(_) => tagged_value(alloc, form, json),
    }
}

/// The object of one member.
pub(crate) fn write_tagged(alloc: Global, tag: &str, json: Json) -> Result<Json, Memory>
    ensures { IfOk result (λ v. view v ≡ tagged tag.now (view json)) }
{
    let mut members = Map::new(alloc);
    put(&mut members, alloc, tag, json)?;
    Ok(Json::from(members))
}

pub(crate) fn write_value(alloc: Global, names: &SymSet, value: &Value) -> Result<Json, Memory>
    ensures written { IfOk result (λ v. view v ≡ value_data names.now value.now) }
    ensures fine { IfOk result (λ _. value_fine value.now) }
{
    match value {
        Value::Num(n) => Ok(Json::from(*n)),
        Value::Truth(b) => Ok(Json::from(*b)),
        Value::Sym(s) => write_tagged(alloc, "sym", s.write(alloc, names)?),
        Value::Set(s) => write_tagged(alloc, "set", write_list(alloc, names, s.as_slice())?),
        Value::List(l) => write_tagged(alloc, "list", write_list(alloc, names, l.as_slice())?),
    }
}

pub(crate) fn push_value(alloc: Global, value: &Value, out: &mut Vec<Symbol>) -> Result<(), Memory>
    ensures { OnOk result (out.new.items ≡ out.old.items ++ value_symbols value.now) }
{
    match value {
        Value::Num(_) => Ok(()),
        Value::Truth(_) => Ok(()),
        Value::Sym(s) => s.push_symbols(alloc, out),
        Value::Set(s) => push_all(alloc, s.as_slice(), out),
        Value::List(l) => push_all(alloc, l.as_slice(), out),
    }
}
