// The conditions under which a query is refused, each as a question on a node.
ghost use Rattle.std.specs.Prelude.{◌≡◌, ◌&&◌, ◌==◌, length, map, option_copied};
ghost use Rattle.std.specs.List.{list_any};
ghost use Rattle.std.specs.Str.{bytes_eq};
ghost use Rattle.pr_value.specs.SymbolSets.{contains};
ghost use Rattle.catalog.specs.Contents.{entry, field};
ghost use Rattle.query_build.specs.Query.{fields_in, literal_value};
ghost use Rattle.query_build.specs.Refusals as spec;
ghost use Rattle.query_build.specs.Refusals.{Condition};
ghost use Rattle.query_build.specs.SeenParts.{seen_part};
ghost use Rattle.rule_ast.specs.Seen.{seen_operator};
ghost use Rattle.rule_ast.specs.SeenRules.{seen_rules};
ghost use Rattle.rule_ast.specs.Typing as typing;
ghost use Rattle.rule_types.specs.Conditions as declared;

use crate::literals::has_kind;
use crate::parts::Part;
use catalog::{Catalog, Fields, FileEntry};
use pr_value::{Kind, Property, Symbol, Value};
use rule_ast::{Literal, Operator, Rules, Setting, is_cost};

/// A question on a node: what is at fault there, or nothing.
pub(crate) trait Question {
    ghost asked: { Self → Condition };

    fn named<'q>(&self, part: &Part<'q>) -> Option<&'q Symbol>
        ensures { option_copied result
            ≡ asked self.now (seen_part part.now).label (seen_part part.now).inputs };
}

/// What is at fault first.
pub(crate) fn first_named<'q, Q: Question>(question: &Q, parts: &[Part<'q>]) -> Option<&'q Symbol>
    ensures { option_copied result
        ≡ spec.first_named (Q.asked question.now) (map seen_part parts.now) }
{
    for part in parts {
        if let Some(name) = question.named(part) {
            return Some(name);
        }
    }
    None
}

fn named_if<'q>(holds: bool, name: &'q Symbol) -> Option<&'q Symbol>
    ensures { option_copied result ≡ spec.named_if holds name.now }
{
    holds.then_some(name)
}

// ---- operators

fn is_operator(operators: &[Operator], name: &Symbol) -> bool
    ensures { result ≡ contains (declared.operator_names (map seen_operator operators.now)) name.now }
{
    for known in operators {
        if *name == known.name {
            return true;
        }
    }
    false
}

fn some_takes(operators: &[Operator], name: &Symbol, inputs: usize) -> bool
    ensures { result
        ≡ list_any (λ o. bytes_eq o.name name.now && length o.views == inputs) operators.now }
{
    operators
        .iter()
        .any(|known| known.name == *name && known.views.len() == inputs)
}

#[tactic(auto, using(rule_types::proofs::ArityLaws::arity_laws))]
fn takes(operators: &[Operator], name: &Symbol, inputs: usize) -> bool
    ensures { result ≡ declared.takes (map seen_operator operators.now) name.now inputs }
{
    some_takes(operators, name, inputs)
}

/// Is the operator not declared?
#[derive(Drop)]
pub(crate) struct UnknownOperator<'a> {
    pub rules: &'a Rules,
}

impl Question for UnknownOperator<'_> {
    ghost asked = { λ q. spec.unknown_operator (seen_rules q.rules.now) };

    fn named<'q>(&self, part: &Part<'q>) -> Option<&'q Symbol> {
        match part {
            Part::File(_) => None,
            Part::Operator { name, .. } => {
                named_if(!is_operator(self.rules.operators.as_slice(), name), name)
            }
        }
    }
}

/// Has the operator another number of inputs than it declares?
#[derive(Drop)]
pub(crate) struct WrongArity<'a> {
    pub rules: &'a Rules,
}

impl Question for WrongArity<'_> {
    ghost asked = { λ q. spec.wrong_arity (seen_rules q.rules.now) };

    fn named<'q>(&self, part: &Part<'q>) -> Option<&'q Symbol> {
        match part {
            Part::File(_) => None,
            Part::Operator { name, inputs, .. } => {
                named_if(!takes(self.rules.operators.as_slice(), name, *inputs), name)
            }
        }
    }
}

// ---- files

fn is_unknown(catalog: &Catalog, name: &Symbol) -> bool
    ensures { result ≡ spec.is_unknown (entry catalog.now name.now) }
{
    match catalog.file(name) {
        FileEntry::Listed(_) | FileEntry::Free => false,
        FileEntry::Unknown => true,
    }
}

/// Does the catalog list files, and not this one?
#[derive(Drop)]
pub(crate) struct UnknownFile<'a> {
    pub catalog: &'a Catalog,
}

impl Question for UnknownFile<'_> {
    ghost asked = { λ q. spec.unknown_file q.catalog.now };

    fn named<'q>(&self, part: &Part<'q>) -> Option<&'q Symbol> {
        match part {
            Part::File(name) => named_if(is_unknown(self.catalog, name), name),
            Part::Operator { .. } => None,
        }
    }
}

// ---- properties

fn property_kind(properties: &[Property], name: &Symbol) -> Option<Kind>
    ensures { result ≡ typing.property_kind properties.now name.now }
{
    for property in properties {
        if property.name == *name {
            return Some(property.kind);
        }
    }
    None
}

fn is_property(properties: &[Property], name: &Symbol) -> bool
    ensures { result ≡ contains (declared.property_names properties.now) name.now }
{
    for known in properties {
        if *name == known.name {
            return true;
        }
    }
    false
}

fn first_undeclared<'q>(rules: &Rules, settings: &'q [Setting]) -> Option<&'q Symbol>
    ensures { option_copied result
        ≡ spec.first_setting (spec.is_undeclared (seen_rules rules.now)) settings.now }
{
    for setting in settings {
        if !is_property(rules.properties.as_slice(), &setting.property) {
            return Some(&setting.property);
        }
    }
    None
}

/// Is the property of a setting not declared?
#[derive(Drop)]
pub(crate) struct UnknownProperty<'a> {
    pub rules: &'a Rules,
}

impl Question for UnknownProperty<'_> {
    ghost asked = { λ q. spec.unknown_property (seen_rules q.rules.now) };

    fn named<'q>(&self, part: &Part<'q>) -> Option<&'q Symbol> {
        match part {
            Part::File(_) => None,
            Part::Operator { settings, .. } => first_undeclared(self.rules, settings),
        }
    }
}

// ---- types

fn is_wrong_value(kind: Kind, value: &Value) -> bool
    ensures { result ≡ spec.is_wrong kind value.now }
{
    is_cost(kind) || !value.has_kind(kind)
}

fn is_wrong_literal(kind: Kind, literal: &Literal) -> bool
    ensures { result ≡ spec.is_wrong kind (literal_value literal.now) }
{
    is_cost(kind) || !has_kind(kind, literal)
}

fn is_wrong_setting(rules: &Rules, setting: &Setting) -> bool
    ensures { result ≡ spec.is_wrong_setting (seen_rules rules.now) setting.now }
{
    match property_kind(rules.properties.as_slice(), &setting.property) {
        Some(kind) => is_wrong_literal(kind, &setting.value),
        None => false,
    }
}

fn first_wrong<'q>(rules: &Rules, settings: &'q [Setting]) -> Option<&'q Symbol>
    ensures { option_copied result
        ≡ spec.first_setting (spec.is_wrong_setting (seen_rules rules.now)) settings.now }
{
    for setting in settings {
        if is_wrong_setting(rules, setting) {
            return Some(&setting.property);
        }
    }
    None
}

fn is_wrong_field(property: &Property, fields: &Fields) -> bool
    ensures { result
        ≡ spec.is_wrong_field property.now (field fields.now property.now.name) }
{
    match fields.get(&property.name) {
        Some(value) => is_wrong_value(property.kind, value),
        None => false,
    }
}

fn has_wrong_field(properties: &[Property], fields: &Fields) -> bool
    ensures { result
        ≡ list_any (λ p. spec.is_wrong_field p (field fields.now p.name)) properties.now }
{
    for property in properties {
        if is_wrong_field(property, fields) {
            return true;
        }
    }
    false
}

/// Does the catalog list a value of another type for a declared property, or one for the cost?
pub(crate) fn is_wrong_file(rules: &Rules, catalog: &Catalog, name: &Symbol) -> bool
    ensures { result
        ≡ spec.is_wrong_file (seen_rules rules.now) (fields_in (entry catalog.now name.now)) }
{
    match catalog.file(name) {
        FileEntry::Listed(fields) => has_wrong_field(rules.properties.as_slice(), fields),
        FileEntry::Free | FileEntry::Unknown => false,
    }
}

/// Has a setting, or the file for a declared property, a value of another type, or one for the
/// cost?
#[derive(Drop)]
pub(crate) struct WrongType<'a> {
    pub rules: &'a Rules,
    pub catalog: &'a Catalog,
}

impl Question for WrongType<'_> {
    ghost asked = { λ q. spec.wrong_type (seen_rules q.rules.now) q.catalog.now };

    fn named<'q>(&self, part: &Part<'q>) -> Option<&'q Symbol> {
        match part {
            Part::File(name) => { named_if(is_wrong_file(self.rules, self.catalog, name), name) }
            Part::Operator { settings, .. } => first_wrong(self.rules, settings),
        }
    }
}
