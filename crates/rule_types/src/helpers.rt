ghost use Rattle.std.specs.Prelude.{◌≡◌, [], map, IfOk};
ghost use Rattle.rule_ast.specs.Seen.{seen_expr, seen_helper};
ghost use Rattle.rule_ast.specs.Typing.{type_of, type_of_kind, is_type, params_context, are_typed, signatures_of};

use crate::context::Context;
use crate::typing::type_of;
use pr_value::{Memory, Property};
use rule_ast::{Helper, is_type, type_of_kind};
use std::alloc::Global;

fn is_typed_helper(
    alloc: Global,
    properties: &[Property],
    earlier: &[Helper],
    helper: &Helper,
) -> Result<bool, Memory>
    ensures { IfOk result (λ b. b ≡ is_type (type_of_kind helper.now.result) (type_of properties.now (signatures_of (map seen_helper earlier.now)) (params_context helper.now.params) (seen_expr helper.now.body))) }
{
    let context = Context::new(alloc, &[], helper.params.as_slice())?;
    let body = type_of(alloc, properties, earlier, &context, &helper.body)?;
    Ok(is_type(type_of_kind(helper.result), body))
}

/// Whether each helper's body has its result's type and calls earlier helpers alone.
#[tactic(auto, using(crate::proofs::StepLaws::step_laws, crate::proofs::CallLaws::call_laws))]
pub fn are_typed(alloc: Global, properties: &[Property], helpers: &[Helper]) -> Result<bool, Memory>
    ensures { IfOk result (λ b. b ≡ are_typed properties.now [] (map seen_helper helpers.now)) }
{
    for (i, helper) in helpers.iter().enumerate() {
        if !is_typed_helper(alloc, properties, &helpers[..i], helper)? {
            return Ok(false);
        }
    }
    Ok(true)
}
