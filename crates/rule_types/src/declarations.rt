// The declarations of a rule set, one section after another.
ghost use Rattle.std.specs.Prelude.{◌≡◌, ◌++◌, map, IfOk, OnOk};
ghost use Rattle.rule_ast.specs.Seen.{seen_operator, seen_helper, seen_trule, seen_irule};
ghost use Rattle.rule_ast.specs.SeenRules.{seen_rules};
ghost use Rattle.rule_types.specs.Declarations as spec;
ghost use Rattle.rule_types.specs.Declarations.{placed, declared_name, property, operator, algorithm, helper, trule, irule};
ghost use Rattle.rule_types.specs.SeenDeclarations.{seen_declaration};

use crate::declaration::Declaration;
use pr_value::{Memory, Property, Symbol};
use rule_ast::{Algorithm, Helper, IRule, Operator, Rules, TRule};
use std::alloc::Global;

fn push_properties<'a>(
    properties: &'a [Property],
    out: &mut Vec<Declaration<'a>>,
) -> Result<(), Memory>
    ensures { OnOk result (map seen_declaration out.new.items
        ≡ map seen_declaration out.old.items ++ map property (placed properties.now)) }
{
    for (i, this) in properties.iter().enumerate() {
        let before = &properties[..i];
        out.push(Declaration::Property { before, this })?;
    }
    Ok(())
}

fn push_operators<'a>(
    operators: &'a [Operator],
    out: &mut Vec<Declaration<'a>>,
) -> Result<(), Memory>
    ensures { OnOk result (map seen_declaration out.new.items
        ≡ map seen_declaration out.old.items ++ map operator (placed (map seen_operator operators.now))) }
{
    for (i, this) in operators.iter().enumerate() {
        let before = &operators[..i];
        out.push(Declaration::Operator { before, this })?;
    }
    Ok(())
}

fn push_algorithms<'a>(
    algorithms: &'a [Algorithm],
    out: &mut Vec<Declaration<'a>>,
) -> Result<(), Memory>
    ensures { OnOk result (map seen_declaration out.new.items
        ≡ map seen_declaration out.old.items ++ map algorithm (placed algorithms.now)) }
{
    for (i, this) in algorithms.iter().enumerate() {
        let before = &algorithms[..i];
        out.push(Declaration::Algorithm { before, this })?;
    }
    Ok(())
}

fn push_helpers<'a>(helpers: &'a [Helper], out: &mut Vec<Declaration<'a>>) -> Result<(), Memory>
    ensures { OnOk result (map seen_declaration out.new.items
        ≡ map seen_declaration out.old.items ++ map helper (placed (map seen_helper helpers.now))) }
{
    for (i, this) in helpers.iter().enumerate() {
        let before = &helpers[..i];
        out.push(Declaration::Helper { before, this })?;
    }
    Ok(())
}

fn push_trules<'a>(trules: &'a [TRule], out: &mut Vec<Declaration<'a>>) -> Result<(), Memory>
    ensures { OnOk result (map seen_declaration out.new.items
        ≡ map seen_declaration out.old.items ++ map trule (placed (map seen_trule trules.now))) }
{
    for (i, this) in trules.iter().enumerate() {
        let before = &trules[..i];
        out.push(Declaration::TRule { before, this })?;
    }
    Ok(())
}

fn push_irules<'a>(irules: &'a [IRule], out: &mut Vec<Declaration<'a>>) -> Result<(), Memory>
    ensures { OnOk result (map seen_declaration out.new.items
        ≡ map seen_declaration out.old.items ++ map irule (placed (map seen_irule irules.now))) }
{
    for (i, this) in irules.iter().enumerate() {
        let before = &irules[..i];
        out.push(Declaration::IRule { before, this })?;
    }
    Ok(())
}

/// The declarations of a rule set, in the order of its text.
pub fn declarations(alloc: Global, rules: &Rules) -> Result<Vec<Declaration<'_>>, Memory>
    ensures { IfOk result (λ ds. map seen_declaration ds.items ≡ spec.declarations (seen_rules rules.now)) }
{
    let mut all = Vec::new(alloc);
    push_properties(rules.properties.as_slice(), &mut all)?;
    push_operators(rules.operators.as_slice(), &mut all)?;
    push_algorithms(rules.algorithms.as_slice(), &mut all)?;
    push_helpers(rules.helpers.as_slice(), &mut all)?;
    push_trules(rules.trules.as_slice(), &mut all)?;
    push_irules(rules.irules.as_slice(), &mut all)?;
    Ok(all)
}

/// The name of what is declared.
pub fn declared_name<'a>(d: &Declaration<'a>) -> &'a Symbol
    ensures { result.now ≡ declared_name (seen_declaration d.now) }
{
    match d {
        Declaration::Property { this, .. } => &this.name,
        Declaration::Operator { this, .. } => &this.name,
        Declaration::Algorithm { this, .. } => &this.name,
        Declaration::Helper { this, .. } => &this.name,
        Declaration::TRule { this, .. } => &this.name,
        Declaration::IRule { this, .. } => &this.name,
    }
}
