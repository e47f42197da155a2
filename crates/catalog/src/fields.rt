ghost use Rattle.std.specs.Prelude.{◌≡◌, true, IfOk, IfSome};
ghost use Rattle.std.specs.Option.{option_copied};
ghost use Rattle.serde_json.specs.View.{members_view};
ghost use Rattle.pr_value.specs.Values.{is_capped};
ghost use Rattle.catalog.specs.Contents.{field};
ghost use Rattle.value_json.specs.Errors.{Reads};
ghost use Rattle.catalog.specs.Shape.{field_in, fields_in};
ghost use Rattle.catalog.specs.NameLaws.{field_in-name};

use crate::by_name::{ByName, Named};
use crate::from_json::{FromMember, members_of};
use pr_value::{Memory, Symbol, Value};
use serde_json::{Map, Value as Json};
use std::alloc::Global;
use std::marker::Model;
use value_json::{PartError, name_of, value_of};

/// A property with its value.
#[derive(Drop)]
pub(crate) struct Field {
    name: Symbol,
    value: Value,
}

impl Model for Field {
    ghost use Rattle.std.specs.Prelude.{◌≡◌, true};
    ghost use Rattle.pr_value.specs.Values.{is_capped};
    ghost use Rattle.catalog.specs.Contents as contents;

    ghost Value = { contents.Field };

    ghost view = { λ f. record { name = f.name; value = f.value } };

    ghost invariant = { λ f. is_capped f.value ≡ true };
}

impl Named for Field {
    ghost name = { λ f. f.name };

    fn name(&self) -> &Symbol {
        &self.name
    }

    fn copy(&self, alloc: Global) -> Result<Field, Memory> {
        Ok(Field {
            name: self.name.copy(alloc)?,
            value: self.value.copy(alloc)?,
        })
    }
}

impl FromMember for Field {
    ghost gives = { λ n d o. field_in n d ≡ o };

    ghost keeps_name = { field_in-name };

    fn from_member(alloc: Global, name: &str, json: &Json) -> Result<Field, PartError> {
        let name = name_of(alloc, name)?;
        let value = value_of(alloc, json)?;
        Ok(Field { name, value })
    }
}

/// The properties of a file, which contracts see as the list of them, ascending by name.
#[derive(Drop)]
pub struct Fields {
    by_name: ByName<Field>,
}

impl Model for Fields {
    ghost use Rattle.std.specs.Prelude.{List};
    ghost use Rattle.catalog.specs.Contents as contents;

    ghost Value = { List contents.Field };

    ghost view = { λ f. f.by_name };
}

impl Fields {
    /// The properties that are the members of an object.
    pub(crate) fn from_members(
        alloc: Global,
        members: &Map<String, Json>,
    ) -> Result<Fields, PartError>
        ensures { Reads result (fields_in (members_view members.now.entries)) }
    {
        let by_name = members_of::<Field>(alloc, members)?;
        Ok(Fields { by_name })
    }

    /// The value of a property. A number is at most 10^18.
    pub fn get(&self, name: &Symbol) -> Option<&Value>
        ensures value { option_copied result ≡ field self.now name.now }
        ensures capped { IfSome result (λ v. is_capped v.now ≡ true) }
    {
        let field = self.by_name.get(name)?;
        Some(&field.value)
    }

    /// Equal properties.
    pub fn copy(&self, alloc: Global) -> Result<Fields, Memory>
        ensures { IfOk result (λ f. f ≡ self.now) }
    {
        let by_name = self.by_name.copy(alloc)?;
        Ok(Fields { by_name })
    }
}
