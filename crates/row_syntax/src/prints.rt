// Rows of rule sets with their printed texts. What is printed reads and prints the same again.
use pr_value::Text;
use row_texts::members::{items, said_string};
use row_texts::report::Report;
use row_texts::texts::{Texts, text_of};
use row_texts::trouble::Trouble;
use rule_ast::Rules;
use rule_lex::{LexError, tokens};
use rule_syntax::{SyntaxError, print_rules, read_rules};
use serde_json::Value as Json;
use std::alloc::Global;

pub fn print_table(
    alloc: Global,
    table: &Json,
    texts: &Texts,
    report: &mut Report,
) -> Result<(), Trouble> {
    let name = said_string(table, table, "table")?;
    for row in items(table, "rows") {
        print_row(alloc, row, name, texts, report)?;
    }
    Ok(())
}

fn print_row(
    alloc: Global,
    row: &Json,
    table: &str,
    texts: &Texts,
    report: &mut Report,
) -> Result<(), Trouble> {
    let name = said_string(row, row, "row")?;
    let text = text_of(alloc, row, "rules", texts)?;
    let once = printed(alloc, text.as_bytes())?;
    let twice = printed(alloc, once.as_slice())?;
    report.row(table, name, once.as_slice(), twice.as_slice())?;
    match row.get("answer") {
        Some(json) => {
            let wanted = texts.text(alloc, json)?;
            report.row(table, name, wanted.as_bytes(), once.as_slice())
        }
        None => Ok(()),
    }
}

/// The printed text of the rule set that a text reads as.
fn printed(alloc: Global, text: &[u8]) -> Result<Text, Trouble> {
    let rules = rules_of(alloc, text)?;
    let mut out = Text::new(alloc);
    print_rules(alloc, &rules, &mut out)?;
    Ok(out)
}

/// The rule set that a text reads as.
pub fn rules_of(alloc: Global, text: &[u8]) -> Result<Rules, Trouble> {
    let ts = match tokens(alloc, text) {
        Ok(ts) => ts,
        Err(LexError::Memory) => return Err(Trouble::Memory),
        Err(_) => return Err(Trouble::Misshapen("the tokens of rules")),
    };
    match read_rules(alloc, &ts) {
        Ok(rules) => Ok(rules),
        Err(SyntaxError::Memory) => Err(Trouble::Memory),
        Err(_) => Err(Trouble::Misshapen("the syntax of rules")),
    }
}
