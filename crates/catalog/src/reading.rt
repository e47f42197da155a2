// The parts of a catalog, in the order in which they are tried.
ghost use Rattle.std.specs.Prelude.{◌≡◌, None, Some, IfOk, IsErrOf, option_map, option_and_then, string_bytes};
ghost use Rattle.serde_json.specs.Data.{Data};
ghost use Rattle.serde_json.specs.View.{view, members_view};
ghost use Rattle.catalog.specs.Reading.{ReadsUnless, bad_in_files, bad_in_tables};
ghost use Rattle.catalog.specs.Shape.{IsJson, first_bad, files_in, members_of as members_in, members_if_any, Says};
ghost use Rattle.catalog.specs.Tables.{GivesTables};
ghost use Rattle.catalog.specs.declared.error.CatalogPart.{CatalogPart as Part};

use crate::by_name::ByName;
use crate::catalog::Catalog;
use crate::error::{CatalogError, CatalogPart};
use crate::files::{File, read_files};
use crate::tables::{Table, are_arrays, read_tables};
use serde_json::Value as Json;
use std::alloc::Global;
use value_json::PartError;

fn bad<T>(part: CatalogPart) -> Result<T, CatalogError>
    ensures { IsErrOf result (CatalogError.BadShape part) }
{
    Err(CatalogError::BadShape { part })
}

/// The JSON value that a text is.
fn json_of(alloc: Global, text: &[u8]) -> Result<Json, CatalogError>
    ensures ok { IfOk result (λ j. IsJson text.now (view j)) }
    ensures bad_shape { (part : Part) → IsErrOf result (CatalogError.BadShape part) → ⊥ }
    ensures not_json { IsErrOf result CatalogError.NotJson → (d : Data) → IsJson text.now d → ⊥ }
{
    match Json::from_slice(alloc, text) {
        Ok(json) => Ok(json),
        Err(error) => {
            if error.is_memory() {
                return Err(CatalogError::Memory);
            }
            Err(CatalogError::NotJson)
        }
    }
}

/// The files of the member `files`, if there is one.
fn files_of(alloc: Global, json: Option<&Json>) -> Result<Option<ByName<File>>, CatalogError>
    ensures { let d = option_map (λ j. view j.now) json.entry in
        ReadsUnless (bad_in_files d)
        (λ fs. fs ≡ option_and_then (λ f. files_in (members_in f)) d) result }
{
    let Some(json) = json else {
        return Ok(None);
    };
    let Some(members) = json.as_object() else {
        return bad(CatalogPart::Files);
    };
    match read_files(alloc, members) {
        Ok(files) => Ok(Some(files)),
        Err(PartError::Misshapen) => bad(CatalogPart::File),
        Err(PartError::Memory) => Err(CatalogError::Memory),
    }
}

/// The tables of the member `tables`, or none where there is no such member.
fn tables_of(alloc: Global, json: Option<&Json>) -> Result<ByName<Table>, CatalogError>
    ensures { let d = option_map (λ j. view j.now) json.entry in
        ReadsUnless (bad_in_tables d) (λ ts. GivesTables (members_if_any d) (Some ts)) result }
{
    let Some(json) = json else {
        return Ok(ByName::new(alloc));
    };
    let Some(members) = json.as_object() else {
        return bad(CatalogPart::Tables);
    };
    if !are_arrays(members) {
        return bad(CatalogPart::Tables);
    }
    match read_tables(alloc, members) {
        Ok(tables) => Ok(tables),
        Err(PartError::Misshapen) => bad(CatalogPart::Row),
        Err(PartError::Memory) => Err(CatalogError::Memory),
    }
}

fn catalog_of(alloc: Global, json: &Json) -> Result<Catalog, CatalogError>
    ensures { ReadsUnless (first_bad (view json.now)) (λ c. Says c (view json.now)) result }
{
    if !json.is_object() {
        return bad(CatalogPart::Root);
    }
    let files = files_of(alloc, json.get("files"))?;
    let tables = tables_of(alloc, json.get("tables"))?;
    Ok(Catalog::from_parts(files, tables))
}

/// The catalog that a text says. Numbers are 0 to 10^18. Members of the root object other than
/// `files` and `tables` are passed over, and of members with one name the last counts. The parts of
/// a text that is no catalog are tried in the order of `CatalogPart`, each over the whole text.
pub fn read_catalog(alloc: Global, text: &[u8]) -> Result<Catalog, CatalogError>
    ensures read { IfOk result
        (λ c. (d : Data) × IsJson text.now d × (first_bad d ≡ None) × Says c d) }
    ensures bad_shape { (part : Part) → IsErrOf result (CatalogError.BadShape part)
        → (d : Data) × IsJson text.now d × (first_bad d ≡ Some part) }
    ensures not_json { IsErrOf result CatalogError.NotJson → (d : Data) → IsJson text.now d → ⊥ }
{
    let json = json_of(alloc, text)?;
    catalog_of(alloc, &json)
}
