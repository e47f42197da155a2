// Descriptors: names with values.
ghost use Rattle.std.specs.Prelude.{◌≡◌, ◌<◌, [], ◌∷◌, ◌++◌, map, length, take, drop, slice_get, slice_set, string_bytes, true, Some, option_map, IfOk, IfErr, OnOk, OnErr, IsTrue};
ghost use Rattle.std.specs.Bool.{OnFalse};
ghost use Rattle.std.specs.List.{IsDistinct};
ghost use Rattle.std.specs.List.Sorted.{IsPermutation, IsSearchInRange, IsSortedBy};
ghost use Rattle.std.specs.Ordering.{is_lt};
ghost use Rattle.std.specs.Str.{bytes_eq};
ghost use Rattle.serde_json.specs.View.{view, items_view};
ghost use Rattle.pr_value.specs.Symbols.{is_name};
ghost use Rattle.pr_value.specs.SymbolSets.{compare_symbols};
ghost use Rattle.pr_value.specs.Values.{is_capped};
ghost use Rattle.value_json.specs.Errors.{Reads, ReadsAs, ReadsEach};
ghost use Rattle.bound_certificate.specs.Fields.{Field, Rise, desc_fine, field_fine, in_order, put_field};
ghost use Rattle.bound_certificate.specs.Shape.{desc_in, fields_in, made_field, member_field, member_in, pair_in, pair_of};
ghost use Rattle.bound_certificate.specs.Written.{desc_data, desc_symbols, field_data, field_symbols};

use crate::form::Form;
use crate::names::name_of;
use crate::part::{Part, push_all, read_list, write_list};
use crate::value::{push_value, spelled_value, value_of, write_value};
use pr_value::{Memory, SymSet, Symbol, Value};
use serde_json::{Map, Value as Json};
use std::alloc::Global;
use std::cmp::Ordering;
use std::marker::Model;
use value_json::{PartError, name_of as plain_name_of};

/// A name with its value.
#[derive(Drop)]
pub(crate) struct CertField {
    name: Symbol,
    value: Value,
}

impl Model for CertField {
    ghost use Rattle.std.specs.Prelude.{◌≡◌, true};
    ghost use Rattle.bound_certificate.specs.Fields as fields;

    ghost Value = { fields.Field };

    ghost view = { λ f. record { name = f.name; value = f.value } };

    ghost invariant = { λ f. fields.is_formed (record { name = f.name; value = f.value }) ≡ true };
}

fn pair_of(alloc: Global, form: &Form, items: &[Json]) -> Result<CertField, PartError>
    ensures { Reads result (pair_of form.now (items_view items.now)) }
{
    match items {
        [name, value] => {
            let name = name_of(alloc, form, name)?;
            let value = value_of(alloc, form, value)?;
            Ok(CertField { name, value })
        }
        _ => Err(PartError::Misshapen),
    }
}

impl Part for CertField {
    ghost said = { pair_in };

    ghost datum = { field_data };

    ghost symbols = { field_symbols };

    ghost formed = { λ _. true };

    ghost fine = { field_fine };

    fn read(alloc: Global, form: &Form, json: &Json) -> Result<CertField, PartError> {
        match json.as_array() {
            Some(items) => pair_of(alloc, form, items.as_slice()),
            None => Err(PartError::Misshapen),
        }
    }

    fn write(&self, alloc: Global, names: &SymSet) -> Result<Json, Memory> {
        let mut pair = Vec::with_capacity(alloc, 2)?;
        pair.push(self.name.write(alloc, names)?)?;
        pair.push(write_value(alloc, names, &self.value)?)?;
        Ok(Json::from(pair))
    }

    fn push_symbols(&self, alloc: Global, out: &mut Vec<Symbol>) -> Result<(), Memory> {
        self.name.push_symbols(alloc, out)?;
        push_value(alloc, &self.value, out)
    }
}

fn member_of(alloc: Global, name: &str, json: &Json) -> Result<CertField, PartError>
    ensures { Reads result (member_field name.now (view json.now)) }
{
    let name = plain_name_of(alloc, name)?;
    let value = spelled_value(alloc, json)?;
    Ok(CertField { name, value })
}

/// A field for each member of an object.
fn members_of(alloc: Global, members: &Map<String, Json>) -> Result<Vec<CertField>, PartError>
    ensures { ReadsEach (λ v. v.items)
        (λ e o. member_field (string_bytes e.0) (view e.1) ≡ o) members.now.entries result }
{
    let mut read = Vec::new(alloc);
    for (name, json) in members.iter() {
        let field = member_of(alloc, name.as_str(), json)?;
        read.push(field)?;
    }
    Ok(read)
}

fn fields_of(alloc: Global, form: &Form, json: &Json) -> Result<Vec<CertField>, PartError>
    ensures { ReadsAs (λ v. v.items) result (fields_in form.now (view json.now)) }
{
    match form {
        Form::Spelled => match json.as_object() {
            Some(members) => members_of(alloc, members),
            None => Err(PartError::Misshapen),
        },
        Form::Placed(_) => read_list::<CertField>(alloc, form, json),
    }
}

/// The order of the fields' names, by bytes.
fn by_name(one: &CertField, other: &CertField) -> Ordering
    ensures { result ≡ compare_symbols one.now.name other.now.name }
{
    one.name.cmp(&other.name)
}

fn sorted(fields: Vec<CertField>) -> Result<Vec<CertField>, Memory>
    ensures { IfOk result (λ v. IsPermutation fields.items v.items
        × IsSortedBy (λ x y. is_lt (compare_symbols x.name y.name)) v.items) }
{
    let mut sorted = fields;
    sorted.sort_by(|one, other| by_name(one, other))?;
    Ok(sorted)
}

/// Whether no two neighbours have equal names.
fn differ(fields: &[CertField]) -> bool
    requires { IsSortedBy (λ x y. is_lt (compare_symbols x.name y.name)) fields.now }
    ensures rise { IsTrue result → Rise fields.now }
    ensures equal { OnFalse result (¬ (IsDistinct bytes_eq (map (λ f. f.name) fields.now))) }
{
    fields.is_sorted_by(|one, other| by_name(one, other).is_lt())
}

/// A descriptor: names with values, which contracts see as the list of them, ascending by name.
#[derive(Drop)]
pub struct CertDesc {
    fields: Vec<CertField>,
}

impl Model for CertDesc {
    ghost use Rattle.std.specs.Prelude.{List};
    ghost use Rattle.bound_certificate.specs.Fields as contents;

    ghost Value = { List contents.Field };

    ghost view = { λ d. d.fields.items };

    ghost invariant = { λ d. contents.Rise d.fields.items };
}

fn from_fields(fields: Vec<CertField>) -> Result<CertDesc, PartError>
    ensures { Reads result (in_order fields.items) }
{
    let fields = sorted(fields)?;
    if !differ(fields.as_slice()) {
        return Err(PartError::Misshapen);
    }
    Ok(CertDesc { fields })
}

fn desc_of(alloc: Global, form: &Form, json: &Json) -> Result<CertDesc, PartError>
    ensures { Reads result (desc_in form.now (view json.now)) }
{
    from_fields(fields_of(alloc, form, json)?)
}

/// The descriptor that is the member of this name.
pub(crate) fn desc_at(
    alloc: Global,
    form: &Form,
    json: &Json,
    name: &str,
) -> Result<CertDesc, PartError>
    ensures { Reads result (member_in (desc_in form.now) name.now (view json.now)) }
{
    match json.get(name) {
        Some(member) => desc_of(alloc, form, member),
        None => Err(PartError::Misshapen),
    }
}

/// Where the field of this name stands, or where it would.
fn place_of(fields: &[CertField], name: &Symbol) -> Result<usize, usize>
    requires { Rise fields.now }
    ensures bound { IsSearchInRange result (length fields.now) }
    ensures found { IfOk result (λ i. (f : Field) → f.name ≡ name.now
        → put_field f fields.now ≡ slice_set fields.now i f) }
    ensures missing { IfErr result (λ i. (f : Field) → f.name ≡ name.now
        → put_field f fields.now ≡ take i fields.now ++ f ∷ drop i fields.now) }
{
    let compare = |field: &CertField| -> Ordering
        ensures { result ≡ compare_symbols field.now.name name.entry.now }
    { field.name.cmp(name) };
    fields.binary_search_by(compare)
}

impl CertDesc {
    /// The descriptor with no field, which takes no memory.
    pub fn new(alloc: Global) -> CertDesc
        ensures { result ≡ [] }
    {
        CertDesc {
            fields: Vec::new(alloc),
        }
    }

    /// Puts a field, in the place of the one of its name if there is one. The descriptor is
    /// unchanged after an error.
    #[tactic(auto, using(crate::proofs::PutLaws::rise_put))]
    pub fn put(&mut self, name: Symbol, value: Value) -> Result<(), Memory>
        requires name { is_name name ≡ true }
        requires capped { is_capped value ≡ true }
        ensures ok { OnOk result (self.new ≡ put_field (made_field name value) self.old) }
        ensures err { OnErr result (self.new ≡ self.old) }
    {
        match place_of(self.fields.as_slice(), &name) {
            Ok(place) => {
                self.fields[place] = CertField { name, value };
                Ok(())
            }
            Err(place) => {
                self.fields.insert(place, CertField { name, value })?;
                Ok(())
            }
        }
    }

    /// How many fields there are.
    pub fn count(&self) -> usize
        ensures { result ≡ length self.now }
    {
        self.fields.len()
    }

    /// The name of a field, in the order of the names' bytes.
    pub fn name(&self, i: usize) -> &Symbol
        requires { i < length self.now }
        ensures there { option_map (λ f. f.name) (slice_get self.now i) ≡ Some result.now }
        ensures name { is_name result.now ≡ true }
    {
        &self.fields[i].name
    }

    /// The value of a field, in the order of the names' bytes.
    pub fn value(&self, i: usize) -> &Value
        requires { i < length self.now }
        ensures there { option_map (λ f. f.value) (slice_get self.now i) ≡ Some result.now }
        ensures capped { is_capped result.now ≡ true }
    {
        &self.fields[i].value
    }

    pub(crate) fn write(&self, alloc: Global, names: &SymSet) -> Result<Json, Memory>
        ensures written { IfOk result (λ v. view v ≡ desc_data names.now self.now) }
        ensures fine { IfOk result (λ _. desc_fine self.now) }
    {
        write_list(alloc, names, self.fields.as_slice())
    }

    pub(crate) fn push_symbols(&self, alloc: Global, out: &mut Vec<Symbol>) -> Result<(), Memory>
        ensures { OnOk result (out.new.items ≡ out.old.items ++ desc_symbols self.now) }
    {
        push_all(alloc, self.fields.as_slice(), out)
    }
}
