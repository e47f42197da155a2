// The first condition of refusal that holds.
ghost use Rattle.std.specs.Prelude.{◌≡◌, Some, None, map, option_copied, codes, IfOk, if◌then◌else◌};
ghost use Rattle.rule_ast.specs.SeenRules.{seen_rules};
ghost use Rattle.rule_types.specs.Conditions as spec;
ghost use Rattle.rule_types.specs.Declarations as declared;
ghost use Rattle.rule_types.specs.SeenDeclarations.{seen_declaration};

use crate::conditions::costs::has_cost;
use crate::declaration::Declaration;
use crate::declarations::declarations;
use crate::holds::first_name;
use crate::refusal::{RefusalKind, Refused};
use crate::roles::Roles;
use pr_value::{Memory, Property, Symbol};
use rule_ast::Rules;
use std::alloc::Global;

const CONDITIONS: [RefusalKind; 24] = [
    RefusalKind::TooMany,
    RefusalKind::TwoNames,
    RefusalKind::NoCost,
    RefusalKind::TwoCosts,
    RefusalKind::UnknownName,
    RefusalKind::WrongArity,
    RefusalKind::HelperCost,
    RefusalKind::WrongType,
    RefusalKind::LeftStreamTwice,
    RefusalKind::StreamOrder,
    RefusalKind::TooManyNodes,
    RefusalKind::LeftNotFlat,
    RefusalKind::CopyPlace,
    RefusalKind::AssignTarget,
    RefusalKind::InputInPost,
    RefusalKind::CostAssigned,
    RefusalKind::CostMissing,
    RefusalKind::CostRead,
    RefusalKind::CostForm,
    RefusalKind::NullForm,
    RefusalKind::EnforcerLeft,
    RefusalKind::EnforcerRoot,
    RefusalKind::PhysicalInTRule,
    RefusalKind::InputNotPhysical,
];

fn no_cost(alloc: Global, properties: &[Property]) -> Result<Option<Symbol>, Memory>
    ensures { IfOk result (λ n. n ≡ (if spec.has_cost properties.now then None else Some (codes "-"))) }
{
    if has_cost(properties) {
        return Ok(None);
    }
    let dash = Symbol::dash(alloc)?;
    Ok(Some(dash))
}

fn copy_found(alloc: Global, name: Option<&Symbol>) -> Result<Option<Symbol>, Memory>
    ensures { IfOk result (λ n. n ≡ option_copied name.entry) }
{
    match name {
        Some(name) => Ok(Some(name.copy(alloc)?)),
        None => Ok(None),
    }
}

// The name that is told where the condition holds.
fn named_by(
    alloc: Global,
    kind: RefusalKind,
    roles: &Roles,
    all: &[Declaration],
) -> Result<Option<Symbol>, Memory>
    requires { map seen_declaration all.now
        ≡ declared.declarations (seen_rules roles.now.rules.now) }
    ensures { IfOk result (λ n. n ≡ spec.named_by kind (seen_rules roles.now.rules.now)) }
{
    if kind == RefusalKind::NoCost {
        let name = no_cost(alloc, roles.rules.properties.as_slice())?;
        return Ok(name);
    }
    let found = first_name(alloc, kind, roles, all)?;
    let name = copy_found(alloc, found)?;
    Ok(name)
}

// The first of these conditions that holds, where these are the declarations.
fn first_refused(
    alloc: Global,
    kinds: &[RefusalKind],
    roles: &Roles,
    all: &[Declaration],
) -> Result<Option<Refused>, Memory>
    requires { map seen_declaration all.now
        ≡ declared.declarations (seen_rules roles.now.rules.now) }
    ensures { IfOk result (λ o. o ≡ spec.first_refused kinds.now (seen_rules roles.now.rules.now)) }
{
    for kind in kinds {
        if let Some(name) = named_by(alloc, *kind, roles, all)? {
            return Ok(Some(Refused { kind: *kind, name }));
        }
    }
    Ok(None)
}

/// Why the rule set is refused, unless it is accepted.
pub fn refused_by(alloc: Global, rules: &Rules) -> Result<Option<Refused>, Memory>
    ensures { IfOk result (λ o. o ≡ spec.refused_by (seen_rules rules.now)) }
{
    let all = declarations(alloc, rules)?;
    let roles = Roles::of(alloc, rules)?;
    let refused = first_refused(alloc, &CONDITIONS, &roles, all.as_slice())?;
    Ok(refused)
}
