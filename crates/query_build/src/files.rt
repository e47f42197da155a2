// The descriptors of files.
ghost use Rattle.std.specs.Prelude.{◌≡◌, ◌<◌, not, length, slice_set, IfNone, IfOk, IfSome, IsTrue, OnOk};
ghost use Rattle.catalog.specs.Contents.{entry, field};
ghost use Rattle.query_build.specs.Query as spec;
ghost use Rattle.query_build.specs.Query.{fields_in};
ghost use Rattle.query_build.specs.Refusals.{is_wrong_file};
ghost use Rattle.rule_trees.specs.Trees.{IsDesc};
ghost use Rattle.rule_ast.specs.SeenRules.{seen_rules};

use crate::conditions::is_wrong_file;
use catalog::{Catalog, Fields, FileEntry};
use descriptor_types::{Desc, Layout};
use pr_value::{Memory, Property, Symbol};
use rule_types::Accepted;
use std::alloc::Global;

/// The value of a property, where the file has one.
fn set_field(
    alloc: Global,
    fields: &Fields,
    property: &Property,
    place: usize,
    desc: &mut Desc,
) -> Result<(), Memory>
    requires place { place < length desc.old }
    ensures some { OnOk result (IfSome (field fields.now property.now.name)
        (λ v. desc.new ≡ slice_set desc.old place v)) }
    ensures none { OnOk result (IfNone (field fields.now property.now.name)
        (desc.new ≡ desc.old)) }
{
    if let Some(value) = fields.get(&property.name) {
        let value = value.copy(alloc)?;
        desc.set(place, value);
    }
    Ok(())
}

/// The listed values of declared properties, and the defaults of the others.
fn file_desc(alloc: Global, layout: &Layout, fields: &Fields) -> Result<Desc, Memory>
    ensures { IfOk result (λ d. d ≡ spec.file_desc layout.now fields.now) }
{
    let mut desc = Desc::plain(alloc, layout)?;
    for (place, property) in layout.as_slice().iter().enumerate() {
        set_field(alloc, fields, property, place, &mut desc)?;
    }
    Ok(desc)
}

/// The descriptor of a file by what the catalog says of it: the listed values of declared
/// properties, and the defaults of the others, as of all of a file that is not listed.
pub fn listed_desc(
    alloc: Global,
    layout: &Layout,
    catalog: &Catalog,
    name: &Symbol,
) -> Result<Desc, Memory>
    ensures { IfOk result
        (λ d. d ≡ spec.file_desc layout.now (fields_in (entry catalog.now name.now))) }
{
    match catalog.file(name) {
        FileEntry::Listed(fields) => file_desc(alloc, layout, fields),
        FileEntry::Free | FileEntry::Unknown => Desc::plain(alloc, layout),
    }
}

/// Whether the values that the catalog lists for the file fit: each is of the type of its property,
/// and none is for the cost. Then the file's descriptor has a value of its kind for each property,
/// and costs 0.
pub fn is_file_fit(a: &Accepted, catalog: &Catalog, name: &Symbol) -> bool
    ensures says { result ≡ not (is_wrong_file (seen_rules a.now.rules)
        (fields_in (entry catalog.now name.now))) }
    ensures desc { IsTrue result → IsDesc (seen_rules a.now.rules)
        (spec.file_desc a.now.rules.properties (fields_in (entry catalog.now name.now))) }
{
    !is_wrong_file(a.rules(), catalog, name)
}
