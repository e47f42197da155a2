// Rows of texts with what reading them comes to. `@` stands before the token of a refusal and is no
// part of the text; a refused text without it is refused at its end.
use pr_value::Tokens;
use row_texts::members::{array, items, said_string, string};
use row_texts::report::Report;
use row_texts::texts::Texts;
use row_texts::trouble::Trouble;
use rule_lex::{LexError, tokens};
use rule_syntax::{SyntaxError, read_query, read_rules};
use serde_json::Value as Json;
use std::alloc::Global;

pub fn read_table(
    alloc: Global,
    table: &Json,
    texts: &Texts,
    report: &mut Report,
) -> Result<(), Trouble> {
    let asked = Asked::of(table)?;
    let frame = Frame::of(alloc, table, texts)?;
    for row in items(table, "rows") {
        let text = framed(alloc, &frame, row, texts)?;
        read_words(alloc, &asked, text.as_str(), table, report)?;
    }
    Ok(())
}

fn framed(alloc: Global, frame: &Frame, row: &Json, texts: &Texts) -> Result<String, Trouble> {
    let text = texts.text(alloc, row)?;
    frame.around(alloc, text.as_str())
}

/// Reads the text with each of the table's words, or without one.
fn read_words(
    alloc: Global,
    asked: &Asked<'_>,
    text: &str,
    table: &Json,
    report: &mut Report,
) -> Result<(), Trouble> {
    let Some(words) = table.get("words") else {
        return read_row(alloc, asked, text, "", report);
    };
    for word in array(words) {
        let word = string(word, "words")?;
        read_row(alloc, asked, text, word, report)?;
    }
    Ok(())
}

/// What a table asks of each of its texts.
#[derive(Clone, Copy)]
struct Asked<'a> {
    table: &'a str,
    comes: &'a str,
    is_query: bool,
}

impl<'a> Asked<'a> {
    fn of(table: &'a Json) -> Result<Asked<'a>, Trouble> {
        Ok(Asked {
            table: said_string(table, table, "table")?,
            comes: said_string(table, table, "comes")?,
            is_query: said_string(table, table, "of")? == "query",
        })
    }

    /// The answer that is expected of a text that is refused at this offset, if it is.
    fn wanted(&self, alloc: Global, at: usize) -> Result<String, Trouble> {
        if self.comes == "read" {
            let out = String::from_str(alloc, self.comes)?;
            return Ok(out);
        }
        refusal(alloc, self.comes, at)
    }
}

fn read_row(
    alloc: Global,
    asked: &Asked<'_>,
    text: &str,
    word: &str,
    report: &mut Report,
) -> Result<(), Trouble> {
    let (text, at) = with_word(alloc, text, word)?;
    read_text(alloc, asked, text.as_str(), at, report)
}

/// Reads a text, which is refused at this offset if it is.
fn read_text(
    alloc: Global,
    asked: &Asked<'_>,
    text: &str,
    at: usize,
    report: &mut Report,
) -> Result<(), Trouble> {
    let came = reading(alloc, asked.is_query, text)?;
    let wanted = asked.wanted(alloc, at)?;
    report.row(asked.table, text, wanted.as_bytes(), came.as_bytes())
}

/// What stands around each text of a table.
#[derive(Drop)]
struct Frame {
    before: String,
    behind: String,
}

impl Frame {
    fn of(alloc: Global, table: &Json, texts: &Texts) -> Result<Frame, Trouble> {
        Ok(Frame {
            before: side(alloc, table, "before", texts)?,
            behind: side(alloc, table, "behind", texts)?,
        })
    }

    fn around(&self, alloc: Global, text: &str) -> Result<String, Trouble> {
        let before = self.before.as_str();
        let behind = self.behind.as_str();
        let out = format!(in alloc; "{before}{text}{behind}")?;
        Ok(out)
    }
}

fn side(alloc: Global, table: &Json, name: &str, texts: &Texts) -> Result<String, Trouble> {
    match table.get(name) {
        Some(json) => texts.text(alloc, json),
        None => Ok(String::new(alloc)),
    }
}

/// The text with the word in place of `@`, and the offset of `@`, or else the text's length.
fn with_word(alloc: Global, text: &str, word: &str) -> Result<(String, usize), Trouble> {
    match text.split_once('@') {
        Some((before, behind)) => {
            let out = format!(in alloc; "{before}{word}{behind}")?;
            Ok((out, before.len()))
        }
        None => {
            let out = String::from_str(alloc, text)?;
            Ok((out, text.len()))
        }
    }
}

/// What reading a text comes to: `read`, or a refusal with its offset.
fn reading(alloc: Global, is_query: bool, text: &str) -> Result<String, Trouble> {
    match tokens(alloc, text.as_bytes()) {
        Ok(ts) => reading_of(alloc, is_query, &ts),
        Err(error) => lex_text(alloc, error),
    }
}

fn reading_of(alloc: Global, is_query: bool, ts: &Tokens) -> Result<String, Trouble> {
    match syntax_error(alloc, is_query, ts) {
        Some(error) => syntax_text(alloc, error),
        None => {
            let out = String::from_str(alloc, "read")?;
            Ok(out)
        }
    }
}

/// Why the tokens are refused, if they are.
fn syntax_error(alloc: Global, is_query: bool, ts: &Tokens) -> Option<SyntaxError> {
    if is_query {
        return read_query(alloc, ts).err();
    }
    read_rules(alloc, ts).err()
}

fn lex_text(alloc: Global, error: LexError) -> Result<String, Trouble> {
    match error {
        LexError::BadByte { at } => refusal(alloc, "BadByte", at),
        LexError::NumberTooBig { at } => refusal(alloc, "NumberTooBig", at),
        LexError::NameTooLong { at } => refusal(alloc, "NameTooLong", at),
        LexError::Memory => Err(Trouble::Memory),
    }
}

fn syntax_text(alloc: Global, error: SyntaxError) -> Result<String, Trouble> {
    match error {
        SyntaxError::BadSyntax { at } => refusal(alloc, "BadSyntax", at),
        SyntaxError::TooDeep { at } => refusal(alloc, "TooDeep", at),
        SyntaxError::Memory => Err(Trouble::Memory),
    }
}

fn refusal(alloc: Global, kind: &str, at: usize) -> Result<String, Trouble> {
    let out = format!(in alloc; "{kind} {at}")?;
    Ok(out)
}
