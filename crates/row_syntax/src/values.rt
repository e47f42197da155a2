// Rows of expressions with their values, over helpers and a catalog.
use crate::prints::rules_of;
use action_eval::{Env, eval};
use catalog::{Catalog, CatalogError, read_catalog};
use descriptor_types::Layout;
use pr_value::Text;
use row_texts::members::{items, pair, said_string};
use row_texts::report::Report;
use row_texts::texts::{Texts, text_of};
use row_texts::trouble::Trouble;
use rule_ast::{Expr, Rules};
use rule_types::{Context, are_typed, type_of};
use serde_json::Value as Json;
use std::alloc::Global;

pub fn value_table(
    alloc: Global,
    table: &Json,
    texts: &Texts,
    report: &mut Report,
) -> Result<(), Trouble> {
    let name = said_string(table, table, "table")?;
    let kind = said_string(table, table, "kind")?;
    let helpers = text_of(alloc, table, "rules", texts)?;
    let catalog = table_catalog(alloc, table, texts)?;
    for row in items(table, "rows") {
        let (expression, wanted) = pair(row, "values")?;
        let came = value(alloc, helpers.as_str(), kind, expression, &catalog)?;
        report.row(name, expression, wanted.as_bytes(), came.as_slice())?;
    }
    Ok(())
}

fn table_catalog(alloc: Global, table: &Json, texts: &Texts) -> Result<Catalog, Trouble> {
    let text = text_of(alloc, table, "catalog", texts)?;
    catalog_of(alloc, text.as_bytes())
}

/// The value of an expression of a kind, or that it is ill typed.
fn value(
    alloc: Global,
    before: &str,
    kind: &str,
    expression: &str,
    catalog: &Catalog,
) -> Result<Text, Trouble> {
    let text = format!(in alloc; "{before} helper probe() : {kind} = {expression};")?;
    let rules = rules_of(alloc, text.as_bytes())?;
    value_under(alloc, &rules, catalog)
}

fn value_under(alloc: Global, rules: &Rules, catalog: &Catalog) -> Result<Text, Trouble> {
    let mut came = Text::new(alloc);
    push_value(alloc, rules, catalog, &mut came)?;
    Ok(came)
}

/// The catalog that a text reads as.
pub fn catalog_of(alloc: Global, text: &[u8]) -> Result<Catalog, Trouble> {
    match read_catalog(alloc, text) {
        Ok(catalog) => Ok(catalog),
        Err(CatalogError::Memory) => Err(Trouble::Memory),
        Err(_) => Err(Trouble::Misshapen("a catalog")),
    }
}

/// Appends the value of the last helper's body, or that it is ill typed.
fn push_value(
    alloc: Global,
    rules: &Rules,
    catalog: &Catalog,
    out: &mut Text,
) -> Result<(), Trouble> {
    let Some(probe) = rules.helpers.as_slice().last() else {
        return Err(Trouble::Misshapen("a helper"));
    };
    if is_typed(alloc, rules, &probe.body)? {
        push_typed(alloc, rules, &probe.body, catalog, out)
    } else {
        out.push_bytes(b"ill typed")?;
        Ok(())
    }
}

/// Whether the helpers are well typed, and the expression over them.
fn is_typed(alloc: Global, rules: &Rules, probe: &Expr) -> Result<bool, Trouble> {
    let properties = rules.properties.as_slice();
    let helpers = rules.helpers.as_slice();
    let context = Context::new(alloc, &[], &[])?;
    if !are_typed(alloc, properties, helpers)? {
        return Ok(false);
    }
    let kind = type_of(alloc, properties, helpers, &context, probe)?;
    Ok(kind.is_some())
}

fn push_typed(
    alloc: Global,
    rules: &Rules,
    probe: &Expr,
    catalog: &Catalog,
    out: &mut Text,
) -> Result<(), Trouble> {
    let layout = Layout::of(alloc, rules.properties.as_slice())?;
    let env = Env::new(alloc, rules, &layout);
    let value = eval(alloc, probe, &env, catalog)?;
    value.print(alloc, out)?;
    Ok(())
}
