// Where a condition holds.
ghost use Rattle.std.specs.Prelude.{◌≡◌, map, option_map, option_copied, IfOk};
ghost use Rattle.std.specs.List.{find};
ghost use Rattle.rule_ast.specs.SeenRules.{seen_rules};
ghost use Rattle.rule_types.specs.Conditions as spec;
ghost use Rattle.rule_types.specs.Declarations as declared;
ghost use Rattle.rule_types.specs.SeenDeclarations.{seen_declaration};

use crate::conditions::costs::{helper_cost, two_costs};
use crate::conditions::enforcers::{
    enforcer_left, enforcer_root, input_not_physical, physical_in_trule,
};
use crate::conditions::nodes::{left_not_flat, too_many_nodes};
use crate::conditions::rule_costs::{cost_assigned, cost_form, cost_missing, cost_read, null_form};
use crate::conditions::streams::{left_stream_twice, stream_order};
use crate::conditions::targets::{assign_target, copy_place, input_in_post};
use crate::conditions::too_many::too_many;
use crate::conditions::two_names::two_names;
use crate::conditions::unknown_name::unknown_name;
use crate::conditions::wrong_arity::wrong_arity;
use crate::conditions::wrong_type::wrong_type;
use crate::declaration::Declaration;
use crate::declarations::declared_name;
use crate::refusal::RefusalKind;
use crate::roles::Roles;
use pr_value::{Memory, Symbol};
use std::alloc::Global;

/// Whether the condition holds in the declaration.
pub fn holds(
    alloc: Global,
    kind: RefusalKind,
    roles: &Roles,
    d: &Declaration,
) -> Result<bool, Memory>
    ensures { IfOk result (λ b. b
        ≡ spec.holds kind (seen_rules roles.now.rules.now) (seen_declaration d.now)) }
{
    match kind {
        RefusalKind::TooMany => Ok(too_many(d)),
        RefusalKind::TwoNames => two_names(alloc, roles.rules, d),
        RefusalKind::NoCost => Ok(false),
        RefusalKind::TwoCosts => Ok(two_costs(d)),
        RefusalKind::UnknownName => unknown_name(alloc, roles.rules, d),
        RefusalKind::WrongArity => Ok(wrong_arity(roles.rules, d)),
        RefusalKind::HelperCost => Ok(helper_cost(d)),
        RefusalKind::WrongType => wrong_type(alloc, roles.rules, d),
        RefusalKind::LeftStreamTwice => left_stream_twice(alloc, d),
        RefusalKind::StreamOrder => stream_order(alloc, d),
        RefusalKind::TooManyNodes => Ok(too_many_nodes(d)),
        RefusalKind::LeftNotFlat => Ok(left_not_flat(d)),
        RefusalKind::CopyPlace => Ok(copy_place(d)),
        RefusalKind::AssignTarget => Ok(assign_target(d)),
        RefusalKind::InputInPost => Ok(input_in_post(d)),
        RefusalKind::CostAssigned => Ok(cost_assigned(roles.cost(), d)),
        RefusalKind::CostMissing => Ok(cost_missing(roles.cost(), d)),
        RefusalKind::CostRead => cost_read(alloc, roles.cost(), d),
        RefusalKind::CostForm => Ok(cost_form(roles.cost(), d)),
        RefusalKind::NullForm => Ok(null_form(roles.cost(), d)),
        RefusalKind::EnforcerLeft => Ok(enforcer_left(roles, d)),
        RefusalKind::EnforcerRoot => Ok(enforcer_root(roles, d)),
        RefusalKind::PhysicalInTRule => Ok(physical_in_trule(roles, d)),
        RefusalKind::InputNotPhysical => Ok(input_not_physical(roles, d)),
    }
}

/// The name of the first of these declarations in which the condition holds, if it holds in one.
pub fn first_name<'a>(
    alloc: Global,
    kind: RefusalKind,
    roles: &Roles,
    all: &[Declaration<'a>],
) -> Result<Option<&'a Symbol>, Memory>
    ensures { IfOk result (λ n. option_copied n
        ≡ option_map declared.declared_name
        (find (spec.holds kind (seen_rules roles.now.rules.now))
        (map seen_declaration all.now))) }
{
    for d in all {
        if holds(alloc, kind, roles, d)? {
            return Ok(Some(declared_name(d)));
        }
    }
    Ok(None)
}
