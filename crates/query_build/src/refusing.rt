// The first condition of refusal that holds.
ghost use Rattle.std.specs.Prelude.{◌≡◌, IfOk};
ghost use Rattle.query_build.specs.Refusals.{refusal_of};
ghost use Rattle.rule_ast.specs.Seen.{seen_query};
ghost use Rattle.rule_ast.specs.SeenRules.{seen_rules};

use crate::conditions::{
    UnknownFile, UnknownOperator, UnknownProperty, WrongArity, WrongType, first_named,
};
use crate::parts::parts;
use crate::refusal::QueryRefusal;
use catalog::Catalog;
use pr_value::Memory;
use rule_ast::{QueryText, Rules};
use std::alloc::Global;

/// The most nodes of a query.
const MOST_NODES: usize = 256;

/// Why the query is refused, unless it builds a tree.
pub(crate) fn refused(
    alloc: Global,
    rules: &Rules,
    catalog: &Catalog,
    query: &QueryText,
) -> Result<Option<QueryRefusal>, Memory>
    ensures { IfOk result
        (λ o. o ≡ refusal_of (seen_rules rules.now) catalog.now (seen_query query.now)) }
{
    let all = parts(alloc, query)?;
    let parts = all.as_slice();
    if parts.len() > MOST_NODES {
        return Ok(Some(QueryRefusal::TooManyNodes));
    }
    if let Some(name) = first_named(&UnknownOperator { rules }, parts) {
        let name = name.copy(alloc)?;
        return Ok(Some(QueryRefusal::UnknownOperator { name }));
    }
    if let Some(name) = first_named(&UnknownFile { catalog }, parts) {
        let name = name.copy(alloc)?;
        return Ok(Some(QueryRefusal::UnknownFile { name }));
    }
    if let Some(name) = first_named(&WrongArity { rules }, parts) {
        let name = name.copy(alloc)?;
        return Ok(Some(QueryRefusal::Arity { name }));
    }
    if let Some(name) = first_named(&UnknownProperty { rules }, parts) {
        let name = name.copy(alloc)?;
        return Ok(Some(QueryRefusal::UnknownProperty { name }));
    }
    if let Some(name) = first_named(&WrongType { rules, catalog }, parts) {
        let name = name.copy(alloc)?;
        return Ok(Some(QueryRefusal::WrongType { name }));
    }
    Ok(None)
}
