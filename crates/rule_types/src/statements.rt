ghost use Rattle.std.specs.Prelude.{◌≡◌, map, IfOk};
ghost use Rattle.std.specs.List.{list_all};
ghost use Rattle.rule_ast.specs.Seen.{seen_helper, seen_stmt};
ghost use Rattle.rule_ast.specs.Typing.{fits_property, is_typed_stmt, signatures_of};
ghost use Rattle.rule_types.specs.Contexts.{seen_context};

use crate::context::Context;
use crate::names::property_kind;
use crate::typing::type_of;
use pr_value::{Kind, Memory, Property};
use rule_ast::{Helper, Stmt, is_type, type_of_kind};
use std::alloc::Global;

fn fits_property(kind: Option<Kind>, value: Option<Kind>) -> bool
    ensures { result ≡ fits_property kind value }
{
    match kind {
        Some(kind) => is_type(type_of_kind(kind), value),
        None => false,
    }
}

/// Whether a statement names known descriptors and gives a declared property a value of its type.
pub fn is_typed_stmt(
    alloc: Global,
    properties: &[Property],
    helpers: &[Helper],
    context: &Context,
    s: &Stmt,
) -> Result<bool, Memory>
    ensures { IfOk result (λ b. b ≡ is_typed_stmt properties.now (signatures_of (map seen_helper helpers.now)) (seen_context context.now) (seen_stmt s.now)) }
{
    match s {
        Stmt::Set {
            desc,
            property,
            value,
        } => {
            let value = type_of(alloc, properties, helpers, context, value)?;
            let declared = property_kind(properties, property);
            Ok(context.has_desc(desc) && fits_property(declared, value))
        }
        Stmt::Copy { to, from } => { Ok(context.has_desc(to) && context.has_desc(from)) }
    }
}

/// Whether each statement is well typed.
#[tactic(auto, using(crate::proofs::StepLaws::step_laws))]
pub fn are_typed_stmts(
    alloc: Global,
    properties: &[Property],
    helpers: &[Helper],
    context: &Context,
    ss: &[Stmt],
) -> Result<bool, Memory>
    ensures { IfOk result (λ b. b ≡ list_all (is_typed_stmt properties.now (signatures_of (map seen_helper helpers.now)) (seen_context context.now)) (map seen_stmt ss.now)) }
{
    for s in ss {
        if !is_typed_stmt(alloc, properties, helpers, context, s)? {
            return Ok(false);
        }
    }
    Ok(true)
}
