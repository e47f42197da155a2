ghost use Rattle.std.specs.Prelude.{◌≡◌, ⊤, true, IfOk};
ghost use Rattle.serde_json.specs.View.{view};
ghost use Rattle.value_json.specs.Errors.{Reads};
ghost use Rattle.bound_certificate.specs.Formed.{step_formed};
ghost use Rattle.bound_certificate.specs.Shape.{step_in, use_in};
ghost use Rattle.bound_certificate.specs.Written.{use_data, step_data, step_symbols};

use crate::form::Form;
use crate::names::{name_at, name_of};
use crate::part::{Part, list_at, write_list};
use crate::value::write_tagged;
use pr_value::{Items, Memory, SymSet, Symbol};
use serde_json::{Map, Value as Json, put};
use std::alloc::Global;
use value_json::PartError;

/// A step of a plan.
#[derive(Drop)]
pub enum CertStep {
    File(Symbol),
    /// An I-rule over earlier steps, by their numbers.
    Rule { rule: Symbol, inputs: Items<u64> },
}

fn read_use(alloc: Global, form: &Form, json: &Json) -> Result<CertStep, PartError>
    ensures read { Reads result (use_in form.now (view json.now)) }
    ensures formed { IfOk result (λ s. step_formed s ≡ true) }
{
    let rule = name_at(alloc, form, json, "rule")?;
    let inputs = list_at::<u64>(alloc, form, json, "in")?;
    Ok(CertStep::Rule { rule, inputs })
}

fn write_use(alloc: Global, names: &SymSet, rule: &Symbol, inputs: &[u64]) -> Result<Json, Memory>
    ensures { IfOk result (λ v. view v ≡ use_data names.now rule.now inputs.now) }
{
    let rule = rule.write(alloc, names)?;
    let inputs = write_list(alloc, names, inputs)?;
    let mut members = Map::new(alloc);
    put(&mut members, alloc, "rule", rule)?;
    put(&mut members, alloc, "in", inputs)?;
    Ok(Json::from(members))
}

impl Part for CertStep {
    ghost said = { step_in };

    ghost datum = { step_data };

    ghost symbols = { step_symbols };

    ghost formed = { step_formed };

    ghost fine = { λ _. ⊤ };

    fn read(alloc: Global, form: &Form, json: &Json) -> Result<CertStep, PartError> {
        match json.get("file") {
            Some(name) => Ok(CertStep::File(name_of(alloc, form, name)?)),
            None => read_use(alloc, form, json),
        }
    }

    fn write(&self, alloc: Global, names: &SymSet) -> Result<Json, Memory> {
        match self {
            CertStep::File(name) => write_tagged(alloc, "file", name.write(alloc, names)?),
            CertStep::Rule { rule, inputs } => write_use(alloc, names, rule, inputs.as_slice()),
        }
    }

    fn push_symbols(&self, alloc: Global, out: &mut Vec<Symbol>) -> Result<(), Memory> {
        match self {
            CertStep::File(name) => name.push_symbols(alloc, out),
            CertStep::Rule { rule, .. } => rule.push_symbols(alloc, out),
        }
    }
}
