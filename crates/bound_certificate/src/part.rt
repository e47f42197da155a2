// Parts of a certificate, from JSON and to JSON.
ghost use Rattle.std.specs.Prelude.{◌≡◌, ◌++◌, Option, List, Bool, true, IfOk, OnOk};
ghost use Rattle.std.specs.List.{AllByRecursion, flat_map, list_all};
ghost use Rattle.serde_json.specs.Data.{Data};
ghost use Rattle.serde_json.specs.View.{view};
ghost use Rattle.pr_value.specs.Symbols.{Symbol as Name};
ghost use Rattle.value_json.specs.Errors.{Reads, ReadsAs, ReadsEach};
ghost use Rattle.bound_certificate.specs.Shape.{number_in, member_in, list_in};
ghost use Rattle.bound_certificate.specs.Written.{number_data, list_data};
ghost use Rattle.bound_certificate.specs.declared.form.Form.{Form as FormSeen};

use crate::form::Form;
use pr_value::{Items, Memory, SymSet, Symbol};
use serde_json::Value as Json;
use std::alloc::Global;
use value_json::PartError;

/// What is read from a JSON value, and written as one.
pub(crate) trait Part: Drop {
    /// What a JSON value says it is.
    ghost said: { FormSeen → Data → Option Self };

    /// The JSON value of it, with symbols by their places.
    ghost datum: { List Name → Self → Data };

    /// The symbols that stand in it.
    ghost symbols: { Self → List Name };

    /// The form that a certificate keeps of it.
    ghost formed: { Self → Bool };

    /// What its type keeps, and its value does not say.
    ghost fine: { Self → Type 0 };

    fn read(alloc: Global, form: &Form, json: &Json) -> Result<Self, PartError>
        ensures read { Reads result (said form.now (view json.now)) }
        ensures formed { IfOk result (λ x. formed x ≡ true) };

    fn write(&self, alloc: Global, names: &SymSet) -> Result<Json, Memory>
        ensures written { IfOk result (λ v. view v ≡ datum names.now self.now) }
        ensures fine { IfOk result (λ _. fine self.now) };

    fn push_symbols(&self, alloc: Global, out: &mut Vec<Symbol>) -> Result<(), Memory>
        ensures { OnOk result (out.new.items ≡ out.old.items ++ symbols self.now) };
}

/// A whole number.
pub(crate) fn number_of(json: &Json) -> Result<u64, PartError>
    ensures { Reads result (number_in (view json.now)) }
{
    match json.as_u64() {
        Some(n) => Ok(n),
        None => Err(PartError::Misshapen),
    }
}

/// The whole number that is the member of this name.
pub(crate) fn number_at(json: &Json, name: &str) -> Result<u64, PartError>
    ensures { Reads result (member_in number_in name.now (view json.now)) }
{
    match json.get(name) {
        Some(member) => number_of(member),
        None => Err(PartError::Misshapen),
    }
}

fn read_each<T: Part>(alloc: Global, form: &Form, items: &[Json]) -> Result<Vec<T>, PartError>
    ensures read { ReadsEach (λ v. v.items)
        (λ v o. T.said form.now (view v) ≡ o) items.now result }
    ensures formed { IfOk result (λ v. list_all T.formed v.items ≡ true) }
{
    let mut parts = Vec::with_capacity(alloc, items.len())?;
    for item in items {
        parts.push(T::read(alloc, form, item)?)?;
    }
    Ok(parts)
}

/// The parts that are the items of an array.
pub(crate) fn read_list<T: Part>(
    alloc: Global,
    form: &Form,
    json: &Json,
) -> Result<Vec<T>, PartError>
    ensures read { ReadsAs (λ v. v.items) result (list_in (T.said form.now) (view json.now)) }
    ensures formed { IfOk result (λ v. list_all T.formed v.items ≡ true) }
{
    match json.as_array() {
        Some(items) => read_each::<T>(alloc, form, items.as_slice()),
        None => Err(PartError::Misshapen),
    }
}

/// The parts that are the items of the array that is the member of this name.
pub(crate) fn list_at<T: Part>(
    alloc: Global,
    form: &Form,
    json: &Json,
    name: &str,
) -> Result<Items<T>, PartError>
    ensures read { Reads result (member_in (list_in (T.said form.now)) name.now (view json.now)) }
    ensures formed { IfOk result (λ v. list_all T.formed v ≡ true) }
{
    match json.get(name) {
        Some(member) => Ok(Items::from_vec(read_list::<T>(alloc, form, member)?)),
        None => Err(PartError::Misshapen),
    }
}

/// The array of the parts.
pub(crate) fn write_list<T: Part>(
    alloc: Global,
    names: &SymSet,
    parts: &[T],
) -> Result<Json, Memory>
    ensures written { IfOk result (λ v. view v ≡ list_data (T.datum names.now) parts.now) }
    ensures fine { IfOk result (λ _. AllByRecursion T.fine parts.now) }
{
    let mut written = Vec::with_capacity(alloc, parts.len())?;
    for part in parts {
        written.push(part.write(alloc, names)?)?;
    }
    Ok(Json::from(written))
}

/// Appends the symbols of each part.
pub(crate) fn push_all<T: Part>(
    alloc: Global,
    parts: &[T],
    out: &mut Vec<Symbol>,
) -> Result<(), Memory>
    ensures { OnOk result (out.new.items ≡ out.old.items ++ flat_map T.symbols parts.now) }
{
    for part in parts {
        part.push_symbols(alloc, out)?;
    }
    Ok(())
}

impl Part for u64 {
    ghost use Rattle.std.specs.Prelude.{[], ⊤, true};

    ghost said = { λ _. number_in };

    ghost datum = { λ _. number_data };

    ghost symbols = { λ _. [] };

    ghost formed = { λ _. true };

    ghost fine = { λ _. ⊤ };

    fn read(_alloc: Global, _form: &Form, json: &Json) -> Result<u64, PartError> {
        number_of(json)
    }

    fn write(&self, _alloc: Global, _names: &SymSet) -> Result<Json, Memory> {
        Ok(Json::from(*self))
    }

    fn push_symbols(&self, _alloc: Global, _out: &mut Vec<Symbol>) -> Result<(), Memory> {
        Ok(())
    }
}
