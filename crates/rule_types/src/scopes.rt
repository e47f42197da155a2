// What the statements and expressions of a declaration may name.
ghost use Rattle.std.specs.Prelude.{◌≡◌, map, IfOk};
ghost use Rattle.rule_ast.specs.Seen.{seen_helper};
ghost use Rattle.rule_ast.specs.SeenRules.{seen_rules};
ghost use Rattle.rule_ast.specs.Typing.{params_context};
ghost use Rattle.rule_types.specs.Conditions.{context_of};
ghost use Rattle.rule_types.specs.Declarations as spec;
ghost use Rattle.rule_types.specs.SeenDeclarations.{seen_declaration};

use crate::declaration::Declaration;
use pr_value::{Items, Memory, Symbol};
use rule_ast::{Helper, Param, Rules, irule_descs, operator_descs, trule_descs};
use std::alloc::Global;

/// The descriptors.
pub fn descs_of(alloc: Global, d: &Declaration) -> Result<Items<Symbol>, Memory>
    ensures { IfOk result (λ names. names ≡ spec.descs_of (seen_declaration d.now)) }
{
    match d {
        Declaration::Operator { this, .. } => operator_descs(alloc, this),
        Declaration::TRule { this, .. } => trule_descs(alloc, this),
        Declaration::IRule { this, .. } => irule_descs(alloc, this),
        _ => Ok(Items::new(alloc)),
    }
}

/// The parameters.
pub fn params_of<'a>(d: &Declaration<'a>) -> &'a [Param]
    ensures names { spec.param_names result.now ≡ spec.params_of (seen_declaration d.now) }
    ensures types { (params_context result.now).vars
        ≡ (context_of (seen_declaration d.now)).vars }
{
    match d {
        Declaration::Helper { this, .. } => this.params.as_slice(),
        _ => &[],
    }
}

/// A helper may call those before it, all else may call each.
pub fn helpers_of<'a>(rules: &'a Rules, d: &Declaration<'a>) -> &'a [Helper]
    ensures { map seen_helper result.now
        ≡ spec.helpers_of (seen_rules rules.now) (seen_declaration d.now) }
{
    match d {
        Declaration::Helper { before, .. } => before,
        _ => rules.helpers.as_slice(),
    }
}
