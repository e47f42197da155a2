// Rows of rule sets with the classes of their properties and the rules of their operators.
ghost use Rattle.std.specs.Prelude.{◌≡◌, ◌<◌, length};
ghost use Rattle.enforcer_find.specs.Enforcers.{operator_rules};
ghost use Rattle.property_classes.specs.Classes.{classes_of};
ghost use Rattle.rule_ast.specs.SeenRules.{seen_rules};

use crate::prints::rules_of;
use enforcer_find::Enforcers;
use pr_value::Text;
use property_classes::{Classes, PropertyClass};
use row_texts::members::{items, said_string};
use row_texts::report::Report;
use row_texts::texts::{Texts, text_of};
use row_texts::trouble::Trouble;
use rule_ast::{IRule, Rules};
use serde_json::Value as Json;
use std::alloc::Global;

pub fn role_table(
    alloc: Global,
    table: &Json,
    texts: &Texts,
    report: &mut Report,
) -> Result<(), Trouble> {
    let name = said_string(table, table, "table")?;
    for row in items(table, "rows") {
        role_row(alloc, row, name, texts, report)?;
    }
    Ok(())
}

fn role_row(
    alloc: Global,
    row: &Json,
    table: &str,
    texts: &Texts,
    report: &mut Report,
) -> Result<(), Trouble> {
    let name = said_string(row, row, "row")?;
    let text = text_of(alloc, row, "rules", texts)?;
    let wanted = text_of(alloc, row, "answer", texts)?;
    let came = roles_of(alloc, text.as_bytes())?;
    report.row(table, name, wanted.as_bytes(), came.as_slice())
}

fn roles_of(alloc: Global, text: &[u8]) -> Result<Text, Trouble> {
    let rules = rules_of(alloc, text)?;
    told(alloc, &rules)
}

/// A line for each property and each operator.
fn told(alloc: Global, rules: &Rules) -> Result<Text, Trouble> {
    let mut out = Text::new(alloc);
    tell_classes(alloc, rules, &mut out)?;
    tell_operators(alloc, rules, &mut out)?;
    Ok(out)
}

/// The name of each property with its class, and whether it is shared, seen and physical.
fn tell_classes(alloc: Global, rules: &Rules, out: &mut Text) -> Result<(), Trouble> {
    let classes = Classes::of(alloc, rules)?;
    tell_all_classes(rules, &classes, out)
}

fn tell_all_classes(rules: &Rules, classes: &Classes, out: &mut Text) -> Result<(), Trouble>
    requires { classes.now ≡ classes_of (seen_rules rules.now) }
{
    for (place, property) in rules.properties.as_slice().iter().enumerate() {
        out.push_bytes(b"property ")?;
        out.push_bytes(property.name.as_slice())?;
        tell_class(classes, place, out)?;
    }
    Ok(())
}

/// The class of the property at this place, and whether it is shared, seen and physical.
fn tell_class(classes: &Classes, place: usize, out: &mut Text) -> Result<(), Trouble>
    requires { place < length classes.now }
{
    out.push_bytes(class_name(classes.class_of(place)))?;
    if classes.is_shared(place) {
        out.push_bytes(b" shared")?;
    }
    if classes.seen().on(place) {
        out.push_bytes(b" seen")?;
    }
    if classes.physical().on(place) {
        out.push_bytes(b" asked")?;
    }
    out.push_bytes(b"\n")?;
    Ok(())
}

fn class_name(class: PropertyClass) -> &'static [u8] {
    match class {
        PropertyClass::Cost => b" Cost",
        PropertyClass::Physical => b" Physical",
        PropertyClass::Shared => b" Shared",
        PropertyClass::Argument => b" Argument",
    }
}

/// The name of each operator with its rules to `Null`, and then with those to algorithms.
fn tell_operators(alloc: Global, rules: &Rules, out: &mut Text) -> Result<(), Trouble> {
    let enforcers = Enforcers::of(alloc, rules)?;
    tell_all_operators(rules, &enforcers, out)
}

fn tell_all_operators(rules: &Rules, enforcers: &Enforcers, out: &mut Text) -> Result<(), Trouble>
    requires { enforcers.now ≡ operator_rules (seen_rules rules.now) }
{
    let irules = rules.irules.as_slice();
    for (place, operator) in rules.operators.as_slice().iter().enumerate() {
        if enforcers.is_enforcer(place) {
            out.push_bytes(b"enforcer ")?;
        } else {
            out.push_bytes(b"operator ")?;
        }
        out.push_bytes(operator.name.as_slice())?;
        tell_operator_rules(irules, enforcers, place, out)?;
    }
    Ok(())
}

/// The rules to `Null` of the operator at this place, and then those to algorithms.
fn tell_operator_rules(
    irules: &[IRule],
    enforcers: &Enforcers,
    place: usize,
    out: &mut Text,
) -> Result<(), Trouble>
    requires { place < length enforcers.now }
{
    tell_rules(irules, enforcers.null_rules(place), out)?;
    out.push_bytes(b" |")?;
    tell_rules(irules, enforcers.algorithms(place), out)?;
    out.push_bytes(b"\n")?;
    Ok(())
}

/// The names of the rules of these numbers.
fn tell_rules(rules: &[IRule], numbers: &[usize], out: &mut Text) -> Result<(), Trouble> {
    for number in numbers {
        out.push_bytes(b" ")?;
        match rules.get(*number) {
            Some(rule) => out.push_bytes(rule.name.as_slice())?,
            None => out.push_bytes(b"?")?,
        }
    }
    Ok(())
}
