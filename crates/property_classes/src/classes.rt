ghost use Rattle.std.specs.Prelude.{◌≡◌, ◌<◌, ◌++◌, Some, length, map, option_map, slice_get, IfOk, OnOk};
ghost use Rattle.rule_ast.specs.Roles.{class_of};
ghost use Rattle.rule_ast.specs.SeenRules.{seen_rules};
ghost use Rattle.property_classes.specs.Classes as spec;
ghost use Rattle.property_classes.specs.Classes.{classes_of};

use crate::reading::is_read_of_streams;
use descriptor_types::Mask;
use pr_value::{Items, Memory, Property};
use rule_ast::{PropertyClass, Rules, is_cost, is_physical};
use std::alloc::Global;
use std::marker::Model;

/// The class of each property of a rule set, seen as the list of them in the order of declaration.
#[derive(Drop)]
pub struct Classes {
    classes: Items<PropertyClass>,
    seen: Mask,
    physical: Mask,
    ghost all_seen: { seen ≡ map spec.is_seen classes },
    ghost all_physical: { physical ≡ map spec.is_physical classes },
}

impl Model for Classes {
    ghost use Rattle.std.specs.Prelude.{List};
    ghost use Rattle.rule_ast.specs.declared.roles.PropertyClass.{PropertyClass};

    ghost Value = { List PropertyClass };

    ghost view = { λ c. c.classes };
}

fn class_of(alloc: Global, rules: &Rules, property: &Property) -> Result<PropertyClass, Memory>
    ensures { IfOk result (λ c. c ≡ class_of (seen_rules rules.now) property.now) }
{
    if is_cost(property.kind) {
        return Ok(PropertyClass::Cost);
    }
    if is_physical(rules.irules.as_slice(), &property.name) {
        return Ok(PropertyClass::Physical);
    }
    if is_read_of_streams(alloc, rules, &property.name)? {
        return Ok(PropertyClass::Shared);
    }
    Ok(PropertyClass::Argument)
}

// The classes of these properties.
fn classes_of(
    alloc: Global,
    rules: &Rules,
    properties: &[Property],
) -> Result<Items<PropertyClass>, Memory>
    ensures { IfOk result (λ cs. cs ≡ map (class_of (seen_rules rules.now)) properties.now) }
{
    let mut classes = Items::new(alloc);
    for property in properties {
        let class = class_of(alloc, rules, property)?;
        classes.push(class)?;
    }
    Ok(classes)
}

fn is_seen(class: PropertyClass) -> bool
    ensures { result ≡ spec.is_seen class }
{
    matches!(class, PropertyClass::Shared | PropertyClass::Physical)
}

fn is_physical_class(class: PropertyClass) -> bool
    ensures { result ≡ spec.is_physical class }
{
    matches!(class, PropertyClass::Physical)
}

fn seen_mask(alloc: Global, classes: &[PropertyClass]) -> Result<Mask, Memory>
    ensures { IfOk result (λ m. m ≡ map spec.is_seen classes.now) }
{
    let mut mask = Mask::new(alloc);
    for class in classes {
        mask.push(is_seen(*class))?;
    }
    Ok(mask)
}

fn physical_mask(alloc: Global, classes: &[PropertyClass]) -> Result<Mask, Memory>
    ensures { IfOk result (λ m. m ≡ map spec.is_physical classes.now) }
{
    let mut mask = Mask::new(alloc);
    for class in classes {
        mask.push(is_physical_class(*class))?;
    }
    Ok(mask)
}

impl Classes {
    /// The classes of the rule set's properties.
    pub fn of(alloc: Global, rules: &Rules) -> Result<Classes, Memory>
        ensures { IfOk result (λ c. c ≡ classes_of (seen_rules rules.now)) }
    {
        let classes = classes_of(alloc, rules, rules.properties.as_slice())?;
        let seen = seen_mask(alloc, classes.as_slice())?;
        let physical = physical_mask(alloc, classes.as_slice())?;
        Ok(Classes {
            classes,
            seen,
            physical,
        })
    }

    /// The same classes again.
    pub fn copy(&self, alloc: Global) -> Result<Classes, Memory>
        ensures { IfOk result (λ c. c ≡ self.now) }
    {
        let classes = Items::from_slice(alloc, self.classes.as_slice())?;
        let seen = self.seen.copy(alloc)?;
        let physical = self.physical.copy(alloc)?;
        Ok(Classes {
            classes,
            seen,
            physical,
        })
    }

    /// The class of the property at a place, from 0.
    pub fn class_of(&self, p: usize) -> PropertyClass
        requires { p < length self.now }
        ensures { slice_get self.now p ≡ Some result }
    {
        self.classes.as_slice()[p]
    }

    /// Whether the property at a place is shared.
    pub fn is_shared(&self, p: usize) -> bool
        requires { p < length self.now }
        ensures { option_map spec.is_shared (slice_get self.now p) ≡ Some result }
    {
        self.class_of(p) == PropertyClass::Shared
    }

    /// The properties that rules see of a stream: those that are shared or physical.
    pub fn seen(&self) -> &Mask
        ensures { result.now ≡ map spec.is_seen self.now }
    {
        &self.seen
    }

    /// The properties that are physical.
    pub fn physical(&self) -> &Mask
        ensures { result.now ≡ map spec.is_physical self.now }
    {
        &self.physical
    }
}
