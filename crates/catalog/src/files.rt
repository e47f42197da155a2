ghost use Rattle.std.specs.Prelude.{◌≡◌};
ghost use Rattle.serde_json.specs.View.{members_view};
ghost use Rattle.value_json.specs.Errors.{Reads};
ghost use Rattle.catalog.specs.NameLaws.{file_in-name};
ghost use Rattle.catalog.specs.Shape.{file_in, files_in};

use crate::by_name::{ByName, Named};
use crate::fields::Fields;
use crate::from_json::{FromMember, members_of};
use pr_value::{Memory, Symbol};
use serde_json::{Map, Value as Json};
use std::alloc::Global;
use std::marker::Model;
use value_json::{PartError, name_of};

/// A file that is listed.
#[derive(Drop)]
pub(crate) struct File {
    name: Symbol,
    fields: Fields,
}

impl Model for File {
    ghost use Rattle.catalog.specs.Contents as contents;

    ghost Value = { contents.File };

    ghost view = { λ f. record { name = f.name; fields = f.fields } };
}

impl Named for File {
    ghost name = { λ f. f.name };

    fn name(&self) -> &Symbol {
        &self.name
    }

    fn copy(&self, alloc: Global) -> Result<File, Memory> {
        Ok(File {
            name: self.name.copy(alloc)?,
            fields: self.fields.copy(alloc)?,
        })
    }
}

impl FromMember for File {
    ghost gives = { λ n d o. file_in n d ≡ o };

    ghost keeps_name = { file_in-name };

    fn from_member(alloc: Global, name: &str, json: &Json) -> Result<File, PartError> {
        let name = name_of(alloc, name)?;
        let Some(members) = json.as_object() else {
            return Err(PartError::Misshapen);
        };
        let fields = Fields::from_members(alloc, members)?;
        Ok(File { name, fields })
    }
}

impl File {
    pub(crate) fn fields(&self) -> &Fields
        ensures { result.now ≡ self.now.fields }
    {
        &self.fields
    }
}

/// The files that are the members of an object.
pub(crate) fn read_files(
    alloc: Global,
    members: &Map<String, Json>,
) -> Result<ByName<File>, PartError>
    ensures { Reads result (files_in (members_view members.now.entries)) }
{
    members_of::<File>(alloc, members)
}
