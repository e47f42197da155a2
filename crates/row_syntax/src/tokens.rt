// Rows of texts with their tokens, each behind its offset.
use pr_value::{Text, Tokens, push_token};
use row_texts::members::{items, pair, said_string};
use row_texts::report::Report;
use row_texts::trouble::Trouble;
use rule_lex::tokens;
use serde_json::Value as Json;
use std::alloc::Global;

pub fn token_table(alloc: Global, table: &Json, report: &mut Report) -> Result<(), Trouble> {
    let name = said_string(table, table, "table")?;
    for row in items(table, "rows") {
        let (text, wanted) = pair(row, "tokens")?;
        let came = tokens_text(alloc, text)?;
        report.row(name, text, wanted.as_bytes(), came.as_slice())?;
    }
    Ok(())
}

fn tokens_text(alloc: Global, text: &str) -> Result<Text, Trouble> {
    let mut came = Text::new(alloc);
    match tokens(alloc, text.as_bytes()) {
        Ok(ts) => push_tokens(alloc, &ts, &mut came)?,
        Err(_) => came.push_bytes(b"refused")?,
    }
    Ok(came)
}

fn push_tokens(alloc: Global, ts: &Tokens, out: &mut Text) -> Result<(), Trouble> {
    for i in 0..ts.count() {
        let place = ts.place(i).to_string(alloc)?;
        if i > 0 {
            out.push_bytes(b", ")?;
        }
        out.push_bytes(place.as_bytes())?;
        out.push_bytes(b" ")?;
        push_token(alloc, ts.token(i), out)?;
    }
    Ok(())
}
