ghost use Rattle.std.specs.Prelude.{◌≡◌, ⊤, true, IfOk, OnOk};
ghost use Rattle.serde_json.specs.View.{view, members_view};
ghost use Rattle.value_json.specs.Errors.{Reads};
ghost use Rattle.bound_certificate.specs.Formed.{line_formed, reason_formed};
ghost use Rattle.bound_certificate.specs.Shape.{part_in, rule_in, turn_in, chain_in, inside_in, reason_by, reason_in, line_in};
ghost use Rattle.bound_certificate.specs.Written.{word_of, with_reason, line_data, line_symbols};

use crate::form::Form;
use crate::names::name_at;
use crate::part::{Part, number_at};
use pr_value::{Memory, SymSet, Symbol};
use serde_json::{Map, Value as Json, put};
use std::alloc::Global;
use value_json::PartError;

/// Why a line holds, by the numbers of earlier lines, a place of an input and a rule.
#[derive(Drop)]
pub enum CertReason {
    Query,
    Part { of: u64, at: u64 },
    Rule { of: u64, rule: Symbol },
    Turn { of: u64 },
    Chain { first: u64, second: u64 },
    Inside { of: u64, at: u64, by: u64 },
}

/// An equation between the trees of two nodes.
#[derive(Drop)]
pub struct CertLine {
    pub left: u64,
    pub right: u64,
    pub why: CertReason,
}

fn read_part(json: &Json) -> Result<CertReason, PartError>
    ensures read { Reads result (part_in (view json.now)) }
    ensures formed { IfOk result (λ r. reason_formed r ≡ true) }
{
    let of = number_at(json, "of")?;
    let at = number_at(json, "at")?;
    Ok(CertReason::Part { of, at })
}

fn read_rule(alloc: Global, form: &Form, json: &Json) -> Result<CertReason, PartError>
    ensures read { Reads result (rule_in form.now (view json.now)) }
    ensures formed { IfOk result (λ r. reason_formed r ≡ true) }
{
    let of = number_at(json, "of")?;
    let rule = name_at(alloc, form, json, "rule")?;
    Ok(CertReason::Rule { of, rule })
}

fn read_turn(json: &Json) -> Result<CertReason, PartError>
    ensures read { Reads result (turn_in (view json.now)) }
    ensures formed { IfOk result (λ r. reason_formed r ≡ true) }
{
    let of = number_at(json, "of")?;
    Ok(CertReason::Turn { of })
}

fn read_chain(json: &Json) -> Result<CertReason, PartError>
    ensures read { Reads result (chain_in (view json.now)) }
    ensures formed { IfOk result (λ r. reason_formed r ≡ true) }
{
    let first = number_at(json, "first")?;
    let second = number_at(json, "second")?;
    Ok(CertReason::Chain { first, second })
}

fn read_inside(json: &Json) -> Result<CertReason, PartError>
    ensures read { Reads result (inside_in (view json.now)) }
    ensures formed { IfOk result (λ r. reason_formed r ≡ true) }
{
    let of = number_at(json, "of")?;
    let at = number_at(json, "at")?;
    let by = number_at(json, "with")?;
    Ok(CertReason::Inside { of, at, by })
}

/// The reason that goes by this word.
fn read_by(alloc: Global, form: &Form, json: &Json, by: &str) -> Result<CertReason, PartError>
    ensures read { Reads result (reason_by form.now (view json.now) by.now) }
    ensures formed { IfOk result (λ r. reason_formed r ≡ true) }
{
    if by == "query" {
        return Ok(CertReason::Query);
    }
    if by == "part" {
        return read_part(json);
    }
    if by == "rule" {
        return read_rule(alloc, form, json);
    }
    if by == "turn" {
        return read_turn(json);
    }
    if by == "chain" {
        return read_chain(json);
    }
    if by == "inside" {
        return read_inside(json);
    }
    Err(PartError::Misshapen)
}

fn read_reason(alloc: Global, form: &Form, json: &Json) -> Result<CertReason, PartError>
    ensures read { Reads result (reason_in form.now (view json.now)) }
    ensures formed { IfOk result (λ r. reason_formed r ≡ true) }
{
    match json.get("by") {
        Some(by) => match by.as_str() {
            Some(word) => read_by(alloc, form, json, word),
            None => Err(PartError::Misshapen),
        },
        None => Err(PartError::Misshapen),
    }
}

fn word(reason: &CertReason) -> &str
    ensures { result.now ≡ word_of reason.now }
{
    match reason {
        CertReason::Query => "query",
        CertReason::Part { .. } => "part",
        CertReason::Rule { .. } => "rule",
        CertReason::Turn { .. } => "turn",
        CertReason::Chain { .. } => "chain",
        CertReason::Inside { .. } => "inside",
    }
}

fn put_reason(
    alloc: Global,
    names: &SymSet,
    reason: &CertReason,
    members: &mut Map<String, Json>,
) -> Result<(), Memory>
    ensures { OnOk result (members_view members.new.entries
        ≡ with_reason names.now reason.now (members_view members.old.entries)) }
{
    match reason {
        CertReason::Query => {}
        CertReason::Part { of, at } => {
            put(members, alloc, "of", Json::from(*of))?;
            put(members, alloc, "at", Json::from(*at))?;
        }
        CertReason::Rule { of, rule } => {
            put(members, alloc, "of", Json::from(*of))?;
            put(members, alloc, "rule", rule.write(alloc, names)?)?;
        }
        CertReason::Turn { of } => {
            put(members, alloc, "of", Json::from(*of))?;
        }
        CertReason::Chain { first, second } => {
            put(members, alloc, "first", Json::from(*first))?;
            put(members, alloc, "second", Json::from(*second))?;
        }
        CertReason::Inside { of, at, by } => {
            put(members, alloc, "of", Json::from(*of))?;
            put(members, alloc, "at", Json::from(*at))?;
            put(members, alloc, "with", Json::from(*by))?;
        }
    }
    Ok(())
}

impl Part for CertLine {
    ghost said = { line_in };

    ghost datum = { line_data };

    ghost symbols = { line_symbols };

    ghost formed = { line_formed };

    ghost fine = { λ _. ⊤ };

    fn read(alloc: Global, form: &Form, json: &Json) -> Result<CertLine, PartError> {
        let left = number_at(json, "left")?;
        let right = number_at(json, "right")?;
        let why = read_reason(alloc, form, json)?;
        Ok(CertLine { left, right, why })
    }

    fn write(&self, alloc: Global, names: &SymSet) -> Result<Json, Memory> {
        let mut members = Map::new(alloc);
        put(&mut members, alloc, "left", Json::from(self.left))?;
        put(&mut members, alloc, "right", Json::from(self.right))?;
        put(
            &mut members,
            alloc,
            "by",
            Json::try_from_str(alloc, word(&self.why))?,
        )?;
        put_reason(alloc, names, &self.why, &mut members)?;
        Ok(Json::from(members))
    }

    fn push_symbols(&self, alloc: Global, out: &mut Vec<Symbol>) -> Result<(), Memory> {
        match &self.why {
            CertReason::Rule { rule, .. } => rule.push_symbols(alloc, out),
            _ => Ok(()),
        }
    }
}
