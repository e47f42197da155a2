ghost use Rattle.std.specs.Prelude.{◌≡◌, None, IfOk, IfErr};
ghost use Rattle.rule_ast.specs.SeenRules.{seen_rules};
ghost use Rattle.rule_types.specs.Acceptance.{IsTold};
ghost use Rattle.rule_types.specs.Conditions as spec;

use crate::accepted::Accepted;
use crate::refusal::{RefusalKind, Refused};
use crate::refusing::refused_by;
use descriptor_types::Layout;
use pr_value::{Memory, Symbol};
use rule_ast::Rules;
use std::alloc::Global;

/// Why a rule set is not accepted.
#[derive(Drop)]
pub enum AcceptError {
    /// The condition holds, and none that is asked before it does.
    Refused { kind: RefusalKind, name: Symbol },
    Memory,
}

impl Accepted {
    /// The rule set.
    pub fn rules(&self) -> &Rules
        ensures same { result.now ≡ self.now.rules }
        ensures accepted { spec.refused_by (seen_rules self.now.rules) ≡ None }
    {
        &self.rules
    }

    /// The properties in the order of declaration.
    pub fn layout(&self) -> &Layout
        ensures { result.now ≡ self.now.rules.properties }
    {
        &self.layout
    }
}

/// The rule set with its layout, or as it was where memory is wanting.
fn with_layout(alloc: Global, rules: Rules) -> Result<Accepted, (Rules, AcceptError)>
    requires { spec.refused_by (seen_rules rules) ≡ None }
    ensures accepted { IfOk result (λ a. a.rules ≡ rules) }
    ensures back { IfErr result (λ e. e ≡ (rules, AcceptError.Memory)) }
{
    match Layout::of(alloc, rules.properties.as_slice()) {
        Ok(layout) => Ok(Accepted { rules, layout }),
        Err(Memory) => Err((rules, AcceptError::Memory)),
    }
}

/// The rule set as an accepted one, or as it was, with the first condition that holds and the name
/// of the first declaration in which it does.
pub fn accept(alloc: Global, rules: Rules) -> Result<Accepted, (Rules, AcceptError)>
    ensures accepted { IfOk result (λ a. a.rules ≡ rules) }
    ensures back { IfErr result (λ e. e.0 ≡ rules) }
    ensures refused { IfErr result (λ e. IsTold (spec.refused_by (seen_rules rules)) e.1) }
{
    match refused_by(alloc, &rules) {
        Ok(None) => with_layout(alloc, rules),
        Ok(Some(Refused { kind, name })) => Err((rules, AcceptError::Refused { kind, name })),
        Err(Memory) => Err((rules, AcceptError::Memory)),
    }
}
