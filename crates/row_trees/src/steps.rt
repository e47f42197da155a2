// Rows of the trees of queries, and of what rules make of them, ask of them and cost there.
ghost use Rattle.std.specs.Prelude.{◌≡◌, ◌<◌, length, IfOk};
ghost use Rattle.descriptor_types.specs.Labels.{seen_tree};
ghost use Rattle.property_classes.specs.Classes.{classes_of};
ghost use Rattle.rule_trees.specs.Trees.{IsTree};
ghost use Rattle.rule_ast.specs.SeenRules.{seen_rules};

use crate::equal::{push_merged, stepped_term};
use crate::listed::plan_of;
use crate::terms::push_terms;
use crate::trees::{push_digits, push_form, push_tree, push_values};
use action_eval::IStep;
use catalog::Catalog;
use derivation::Terms;
use descriptor_types::Tree;
use plan_form::implements;
use pr_value::Text;
use property_classes::Classes;
use query_tree::{QueryRefusal, TreeLabel, add_tree, build, i_step, t_step};
use row_syntax::prints::rules_of;
use row_syntax::values::catalog_of;
use row_texts::members::{items, said, said_string, string};
use row_texts::report::Report;
use row_texts::texts::{Texts, text_of};
use row_texts::trouble::Trouble;
use rule_ast::{QueryText, Rules};
use rule_lex::{LexError, tokens};
use rule_syntax::{SyntaxError, read_query};
use rule_types::{AcceptError, Accepted, accept};
use serde_json::Value as Json;
use std::alloc::Global;

pub fn step_table(
    alloc: Global,
    table: &Json,
    texts: &Texts,
    report: &mut Report,
) -> Result<(), Trouble> {
    let name = said_string(table, table, "table")?;
    let accepted = accepted_of(alloc, table, texts)?;
    for row in items(table, "rows") {
        step_row(alloc, &accepted, row, table, name, texts, report)?;
    }
    Ok(())
}

fn step_row(
    alloc: Global,
    accepted: &Accepted,
    row: &Json,
    table: &Json,
    table_name: &str,
    texts: &Texts,
    report: &mut Report,
) -> Result<(), Trouble> {
    let name = said_string(row, row, "row")?;
    let wanted = text_of(alloc, row, "answer", texts)?;
    let came = came_of(alloc, accepted, row, table, texts)?;
    report.row(table_name, name, wanted.as_bytes(), came.as_slice())
}

/// The accepted rule set of the table.
fn accepted_of(alloc: Global, table: &Json, texts: &Texts) -> Result<Accepted, Trouble> {
    let rules = table_rules(alloc, table, texts)?;
    match accept(alloc, rules) {
        Ok(accepted) => Ok(accepted),
        Err((_rules, error)) => Err(refusal(&error)),
    }
}

fn refusal(error: &AcceptError) -> Trouble {
    match error {
        AcceptError::Memory => Trouble::Memory,
        _ => Trouble::Misshapen("accepted rules"),
    }
}

fn table_rules(alloc: Global, table: &Json, texts: &Texts) -> Result<Rules, Trouble> {
    let text = text_of(alloc, table, "rules", texts)?;
    rules_of(alloc, text.as_bytes())
}

fn query_of(alloc: Global, text: &[u8]) -> Result<QueryText, Trouble> {
    let ts = match tokens(alloc, text) {
        Ok(ts) => ts,
        Err(LexError::Memory) => return Err(Trouble::Memory),
        Err(_) => return Err(Trouble::Misshapen("the tokens of a query")),
    };
    match read_query(alloc, &ts) {
        Ok(query) => Ok(query),
        Err(SyntaxError::Memory) => Err(Trouble::Memory),
        Err(_) => Err(Trouble::Misshapen("the syntax of a query")),
    }
}

/// The text of the row's member, or else of the table's.
fn said_text(
    alloc: Global,
    row: &Json,
    table: &Json,
    name: &'static str,
    texts: &Texts,
) -> Result<String, Trouble> {
    match said(row, table, name) {
        Some(json) => texts.text(alloc, json),
        None => Err(Trouble::Misshapen(name)),
    }
}

fn row_catalog(alloc: Global, row: &Json, table: &Json, texts: &Texts) -> Result<Catalog, Trouble> {
    let text = said_text(alloc, row, table, "catalog", texts)?;
    catalog_of(alloc, text.as_bytes())
}

fn row_query(alloc: Global, row: &Json, table: &Json, texts: &Texts) -> Result<QueryText, Trouble> {
    let text = said_text(alloc, row, table, "query", texts)?;
    query_of(alloc, text.as_bytes())
}

/// Under what a row builds its tree and takes its rule.
#[derive(Clone, Copy)]
pub struct Under<'a> {
    pub accepted: &'a Accepted,
    pub classes: &'a Classes,
    pub catalog: &'a Catalog,
}

/// The tree of the row's query, or what the row's rule makes of it or asks and costs there.
fn came_of(
    alloc: Global,
    accepted: &Accepted,
    row: &Json,
    table: &Json,
    texts: &Texts,
) -> Result<Text, Trouble> {
    let classes = Classes::of(alloc, &accepted.rules)?;
    let catalog = row_catalog(alloc, row, table, texts)?;
    let query = row_query(alloc, row, table, texts)?;
    let under = Under {
        accepted,
        classes: &classes,
        catalog: &catalog,
    };
    came_under(alloc, &under, &query, row)
}

/// The tree of the query, or what the row's rule makes of it or asks and costs there.
fn came_under(
    alloc: Global,
    under: &Under<'_>,
    query: &QueryText,
    row: &Json,
) -> Result<Text, Trouble>
    requires classes { under.now.classes.now ≡ classes_of (seen_rules under.now.accepted.now.rules) }
{
    match build(alloc, under.accepted, under.classes, under.catalog, query) {
        Ok(tree) => told(alloc, under, row, &tree),
        Err(QueryRefusal::Memory) => Err(Trouble::Memory),
        Err(_refusal) => Err(Trouble::Misshapen("a query that builds a tree")),
    }
}

/// The tree, or what the row's T-rule makes of it or merges in a memo of it, or what its I-rule asks
/// and costs there, or whether its plan implements it, or its terms.
fn told(alloc: Global, under: &Under<'_>, row: &Json, tree: &Tree) -> Result<Text, Trouble>
    requires classes { under.now.classes.now ≡ classes_of (seen_rules under.now.accepted.now.rules) }
    requires tree { IsTree (seen_rules under.now.accepted.now.rules) under.now.catalog.now
        (seen_tree tree.now) }
{
    let mut out = Text::new(alloc);
    tell(alloc, under, row, tree, &mut out)?;
    Ok(out)
}

fn tell(
    alloc: Global,
    under: &Under<'_>,
    row: &Json,
    tree: &Tree,
    out: &mut Text,
) -> Result<(), Trouble>
    requires classes { under.now.classes.now ≡ classes_of (seen_rules under.now.accepted.now.rules) }
    requires tree { IsTree (seen_rules under.now.accepted.now.rules) under.now.catalog.now
        (seen_tree tree.now) }
{
    if let Some(json) = row.get("trule") {
        tell_rewritten(alloc, under, string(json, "trule")?, tree, out)
    } else if let Some(json) = row.get("merged") {
        tell_merged(alloc, under, string(json, "merged")?, tree, out)
    } else if let Some(json) = row.get("irule") {
        tell_implemented(alloc, under, string(json, "irule")?, tree, out)
    } else if let Some(json) = row.get("plan") {
        tell_plan(alloc, under, json, tree, out)
    } else if row.get("terms").is_some() {
        tell_terms(alloc, under, tree, out)
    } else {
        push_tree(alloc, &under.accepted.rules, tree, 0, out)
    }
}

/// The number of the T-rule of that name.
fn trule_named(accepted: &Accepted, name: &str) -> Result<usize, Trouble>
    ensures { IfOk result (λ n. n < length accepted.now.rules.trules) }
{
    let rules = accepted.rules.trules.as_slice();
    for number in 0..rules.len() {
        if rules[number].name.as_slice() == name.as_bytes() {
            return Ok(number);
        }
    }
    Err(Trouble::Misshapen("the name of a T-rule"))
}

/// What the T-rule of that name makes of the tree, and whether it makes another on terms.
fn tell_rewritten(
    alloc: Global,
    under: &Under<'_>,
    name: &str,
    tree: &Tree,
    out: &mut Text,
) -> Result<(), Trouble>
    requires classes { under.now.classes.now ≡ classes_of (seen_rules under.now.accepted.now.rules) }
    requires tree { IsTree (seen_rules under.now.accepted.now.rules) under.now.catalog.now
        (seen_tree tree.now) }
{
    let Under {
        accepted,
        classes,
        catalog,
    } = *under;
    let number = trule_named(accepted, name)?;
    let mut terms = Terms::new(alloc);
    let stepped = stepped_term(alloc, under, number, tree, &mut terms)?;
    match t_step(alloc, accepted, classes, catalog, number, tree)? {
        Some(made) => tell_made(alloc, under, &made, &mut terms, stepped, out),
        None => {
            out.push_bytes(b"none\n")?;
            tell_same(stepped.is_none(), out)
        }
    }
}

/// The tree that a T-rule makes, and whether its term is another than the one that it makes there.
fn tell_made(
    alloc: Global,
    under: &Under<'_>,
    made: &Tree,
    terms: &mut Terms<TreeLabel>,
    stepped: Option<usize>,
    out: &mut Text,
) -> Result<(), Trouble>
    requires classes { under.now.classes.now ≡ classes_of (seen_rules under.now.accepted.now.rules) }
    requires tree { IsTree (seen_rules under.now.accepted.now.rules) under.now.catalog.now
        (seen_tree made.now) }
{
    push_tree(alloc, &under.accepted.rules, made, 0, out)?;
    let term = add_tree(alloc, under.accepted, under.classes, made, terms)?;
    tell_same(stepped == Some(term), out)
}

fn tell_same(same: bool, out: &mut Text) -> Result<(), Trouble> {
    if !same {
        out.push_bytes(b"otherwise on terms\n")?;
    }
    Ok(())
}

/// What a memo of the tree merges where the T-rule of that name makes a tree over parts of it.
fn tell_merged(
    alloc: Global,
    under: &Under<'_>,
    name: &str,
    tree: &Tree,
    out: &mut Text,
) -> Result<(), Trouble>
    requires classes { under.now.classes.now ≡ classes_of (seen_rules under.now.accepted.now.rules) }
    requires tree { IsTree (seen_rules under.now.accepted.now.rules) under.now.catalog.now
        (seen_tree tree.now) }
{
    let number = trule_named(under.accepted, name)?;
    push_merged(alloc, under, number, tree, out)
}

/// What the I-rule of that name asks and costs at the tree.
fn tell_implemented(
    alloc: Global,
    under: &Under<'_>,
    name: &str,
    tree: &Tree,
    out: &mut Text,
) -> Result<(), Trouble>
    requires classes { under.now.classes.now ≡ classes_of (seen_rules under.now.accepted.now.rules) }
    requires tree { IsTree (seen_rules under.now.accepted.now.rules) under.now.catalog.now
        (seen_tree tree.now) }
{
    let accepted = under.accepted;
    for (number, rule) in accepted.rules.irules.as_slice().iter().enumerate() {
        if rule.name.as_slice() == name.as_bytes() {
            match i_step(alloc, accepted, under.classes, under.catalog, number, tree)? {
                Some(step) => push_step(alloc, accepted, &step, out)?,
                None => out.push_bytes(b"none\n")?,
            }
        }
    }
    Ok(())
}

/// Whether the listed plan implements the tree.
fn tell_plan(
    alloc: Global,
    under: &Under<'_>,
    nodes: &Json,
    tree: &Tree,
    out: &mut Text,
) -> Result<(), Trouble>
    requires classes { under.now.classes.now ≡ classes_of (seen_rules under.now.accepted.now.rules) }
    requires tree { IsTree (seen_rules under.now.accepted.now.rules) under.now.catalog.now
        (seen_tree tree.now) }
{
    let Under {
        accepted,
        classes,
        catalog,
    } = *under;
    let plan = plan_of(alloc, accepted, nodes)?;
    if implements(alloc, accepted, classes, catalog, &plan, tree)? {
        out.push_bytes(b"implements\n")?;
    } else {
        out.push_bytes(b"does not implement\n")?;
    }
    Ok(())
}

/// The terms of the tree, added twice, and the numbers that then stand for it.
fn tell_terms(alloc: Global, under: &Under<'_>, tree: &Tree, out: &mut Text) -> Result<(), Trouble>
    requires classes { under.now.classes.now ≡ classes_of (seen_rules under.now.accepted.now.rules) }
    requires tree { IsTree (seen_rules under.now.accepted.now.rules) under.now.catalog.now
        (seen_tree tree.now) }
{
    let Under {
        accepted,
        classes,
        ..
    } = *under;
    let mut terms = Terms::new(alloc);
    let first = add_tree(alloc, accepted, classes, tree, &mut terms)?;
    let again = add_tree(alloc, accepted, classes, tree, &mut terms)?;
    push_terms(alloc, &accepted.rules, &terms, out)?;
    push_stands(alloc, first, again, out)
}

fn push_stands(alloc: Global, first: usize, again: usize, out: &mut Text) -> Result<(), Trouble> {
    out.push_bytes(b"stands ")?;
    push_digits(alloc, first as u64, out)?;
    out.push_bytes(b" and ")?;
    push_digits(alloc, again as u64, out)?;
    out.push_bytes(b"\n")?;
    Ok(())
}

/// What is asked of each input, the algorithm's descriptor, and the cost over the inputs' costs.
fn push_step(
    alloc: Global,
    accepted: &Accepted,
    step: &IStep,
    out: &mut Text,
) -> Result<(), Trouble> {
    for asked in step.asked.as_slice() {
        out.push_bytes(b"asked")?;
        push_values(alloc, &accepted.rules, asked, out)?;
        out.push_bytes(b"\n")?;
    }
    out.push_bytes(b"before")?;
    push_values(alloc, &accepted.rules, &step.before, out)?;
    out.push_bytes(b"\ncost ")?;
    push_form(alloc, &step.cost, out)?;
    out.push_bytes(b"\n")?;
    Ok(())
}
