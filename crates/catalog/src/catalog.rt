ghost use Rattle.std.specs.Prelude.{◌≡◌, [], None, true, is_some, IfOk, IfSome};
ghost use Rattle.std.specs.Option.{option_copied};
ghost use Rattle.pr_value.specs.Values.{is_capped};
ghost use Rattle.catalog.specs.Contents.{entry, entry_in, lookup};
ghost use Rattle.catalog.specs.Entries.{seen_entry};

use crate::by_name::ByName;
use crate::fields::Fields;
use crate::files::File;
use crate::tables::Table;
use pr_value::{Memory, Symbol, Value};
use std::alloc::Global;
use std::marker::Model;

/// What a catalog says of a file.
#[derive(Clone, Copy)]
pub enum FileEntry<'a> {
    /// It is listed with these properties.
    Listed(&'a Fields),
    /// No files are listed, so that each name is one.
    Free,
    /// Files are listed, and it is none of them.
    Unknown,
}

/// Files with their properties, and tables of values.
#[derive(Drop)]
pub struct Catalog {
    files: Option<ByName<File>>,
    tables: ByName<Table>,
}

impl Model for Catalog {
    ghost use Rattle.catalog.specs.Contents as contents;

    ghost Value = { contents.Catalog };

    ghost view = { λ c. record { files = c.files; tables = c.tables } };
}

fn entry_in<'a>(files: &'a ByName<File>, name: &Symbol) -> FileEntry<'a>
    ensures { seen_entry result ≡ entry_in files.now name.now }
{
    match files.get(name) {
        Some(file) => FileEntry::Listed(file.fields()),
        None => FileEntry::Unknown,
    }
}

fn copy_files(alloc: Global, files: &Option<ByName<File>>) -> Result<Option<ByName<File>>, Memory>
    ensures { IfOk result (λ fs. fs ≡ files.now) }
{
    match files {
        Some(files) => Ok(Some(files.copy(alloc)?)),
        None => Ok(None),
    }
}

impl Catalog {
    /// The catalog that lists no files and has no tables.
    pub fn empty(alloc: Global) -> Catalog
        ensures files { result.files ≡ None }
        ensures tables { result.tables ≡ [] }
    {
        Catalog {
            files: None,
            tables: ByName::new(alloc),
        }
    }

    pub(crate) fn from_parts(files: Option<ByName<File>>, tables: ByName<Table>) -> Catalog
        ensures files { result.files ≡ files }
        ensures tables { result.tables ≡ tables }
    {
        Catalog { files, tables }
    }

    /// Whether files are listed, so that a file may be unknown.
    pub fn lists_files(&self) -> bool
        ensures { result ≡ is_some self.now.files }
    {
        self.files.is_some()
    }

    /// The entry of a file. It takes no memory.
    pub fn file(&self, name: &Symbol) -> FileEntry<'_>
        ensures { seen_entry result ≡ entry self.now name.now }
    {
        match &self.files {
            Some(files) => entry_in(files, name),
            None => FileEntry::Free,
        }
    }

    /// The value in a table at some keys. A number is at most 10^18. It takes no memory.
    pub fn lookup(&self, table: &Symbol, keys: &[Symbol]) -> Option<&Value>
        ensures value { option_copied result ≡ lookup self.now table.now keys.now }
        ensures capped { IfSome result (λ v. is_capped v.now ≡ true) }
    {
        let table = self.tables.get(table)?;
        table.rows().get(keys)
    }

    /// An equal catalog.
    pub fn copy(&self, alloc: Global) -> Result<Catalog, Memory>
        ensures { IfOk result (λ c. c ≡ self.now) }
    {
        let files = copy_files(alloc, &self.files)?;
        let tables = self.tables.copy(alloc)?;
        Ok(Catalog { files, tables })
    }
}
