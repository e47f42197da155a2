// Rows of runs: words and texts, with the status and the text that the run ends with.
use pr_outside::{Bytes, MemShelf, MemSink, Name};
use prairie_top::{Status, run};
use row_texts::members::{array, items, said, said_number, string};
use row_texts::report::Report;
use row_texts::texts::Texts;
use row_texts::trouble::Trouble;
use serde_json::Value as Json;
use std::alloc::Global;

/// The texts that a row may hold, under these names.
const FILES: [&str; 3] = ["rules", "catalog", "query"];

pub fn run_table(
    alloc: Global,
    table: &Json,
    texts: &Texts,
    report: &mut Report,
) -> Result<(), Trouble> {
    let name = match table.get("table") {
        Some(json) => string(json, "table")?,
        None => "",
    };
    for (i, row) in items(table, "rows").iter().enumerate() {
        let row_name = row_name(alloc, row, i)?;
        run_row(alloc, row, table, texts, name, row_name.as_str(), report)?;
    }
    Ok(())
}

fn run_row(
    alloc: Global,
    row: &Json,
    table: &Json,
    texts: &Texts,
    table_name: &str,
    name: &str,
    report: &mut Report,
) -> Result<(), Trouble> {
    let wanted = Wanted::of(alloc, row, table, texts)?;
    let came = came(alloc, row, table, texts)?;
    let came = wanted.part_of(came.as_slice());
    report.row(table_name, name, wanted.line.as_slice(), came)
}

/// A row's name, or else its number.
fn row_name(alloc: Global, row: &Json, i: usize) -> Result<String, Trouble> {
    match row.get("row") {
        Some(json) => {
            let name = String::from_str(alloc, string(json, "row")?)?;
            Ok(name)
        }
        None => {
            let name = format!(in alloc; "row {i}")?;
            Ok(name)
        }
    }
}

/// The line of an answer: the status, and the text behind it.
fn line(alloc: Global, status: u64, text: &[u8]) -> Result<Vec<u8>, Trouble> {
    let digits = status.to_string(alloc)?;
    let mut out = Vec::new(alloc);
    out.extend_from_slice(digits.as_bytes())?;
    out.push(b' ')?;
    out.extend_from_slice(text)?;
    Ok(out)
}

/// The line that a row wants.
#[derive(Drop)]
struct Wanted {
    line: Vec<u8>,
    /// It is only the line's beginning.
    begins: bool,
}

impl Wanted {
    fn of(alloc: Global, row: &Json, table: &Json, texts: &Texts) -> Result<Wanted, Trouble> {
        match said(row, table, "begins") {
            Some(text) => Wanted::with_text(alloc, row, table, texts, text, true),
            None => match said(row, table, "answer") {
                Some(text) => Wanted::with_text(alloc, row, table, texts, text, false),
                None => Err(Trouble::Misshapen("answer")),
            },
        }
    }

    fn with_text(
        alloc: Global,
        row: &Json,
        table: &Json,
        texts: &Texts,
        text: &Json,
        begins: bool,
    ) -> Result<Wanted, Trouble> {
        let Some(status) = said_number(row, table, "status")? else {
            return Err(Trouble::Misshapen("status"));
        };
        let text = texts.text(alloc, text)?;
        let line = line(alloc, status, text.as_bytes())?;
        Ok(Wanted { line, begins })
    }

    /// As much of a line as this one is compared with.
    fn part_of<'a>(&self, came: &'a [u8]) -> &'a [u8] {
        if self.begins {
            let (begin, _) = came.split_at(came.len().min(self.line.len()));
            return begin;
        }
        came
    }
}

/// The line that a row's run ends with.
fn came(alloc: Global, row: &Json, table: &Json, texts: &Texts) -> Result<Vec<u8>, Trouble> {
    let words = words_of(alloc, row, table)?;
    let mut shelf = shelf_of(alloc, row, table, texts)?;
    came_over(alloc, row, table, words.as_slice(), &mut shelf)
}

fn came_over(
    alloc: Global,
    row: &Json,
    table: &Json,
    words: &[Name],
    shelf: &mut MemShelf,
) -> Result<Vec<u8>, Trouble> {
    let mut sink = sink_of(alloc, row, table)?;
    let status = run(alloc, words, shelf, &mut sink);
    line(alloc, status.number() as u64, sink.bytes())
}

/// A sink, which fails where the row says so, and else at a second put.
fn sink_of(alloc: Global, row: &Json, table: &Json) -> Result<MemSink, Trouble> {
    let mut sink = MemSink::new(alloc);
    sink.fail_at(2, 0)?;
    if let Some(taken) = said_number(row, table, "put_fails_after")? {
        sink.fail_at(1, taken as usize)?;
    }
    Ok(sink)
}

/// A shelf with the row's texts under their names, which fails where the row says so.
fn shelf_of(alloc: Global, row: &Json, table: &Json, texts: &Texts) -> Result<MemShelf, Trouble> {
    let mut shelf = MemShelf::new(alloc);
    for name in FILES {
        if let Some(json) = said(row, table, name) {
            hold(alloc, name, json, texts, &mut shelf)?;
        }
    }
    if let Some(files) = said(row, table, "files") {
        hold_all(alloc, files, texts, &mut shelf)?;
    }
    if let Some(call) = said_number(row, table, "fetch_fails")? {
        if 1 <= call && call < u64::MAX {
            shelf.fail_at(call)?;
        }
    }
    Ok(shelf)
}

/// Holds texts under the names that a row gives them.
fn hold_all(
    alloc: Global,
    files: &Json,
    texts: &Texts,
    shelf: &mut MemShelf,
) -> Result<(), Trouble> {
    let Some(files) = files.as_object() else {
        return Err(Trouble::Misshapen("files"));
    };
    for (name, json) in files.iter() {
        hold(alloc, name.as_str(), json, texts, shelf)?;
    }
    Ok(())
}

fn hold(
    alloc: Global,
    name: &str,
    json: &Json,
    texts: &Texts,
    shelf: &mut MemShelf,
) -> Result<(), Trouble> {
    let text = texts.bytes(alloc, json)?;
    let bytes = Bytes::new(alloc, text.as_slice())?;
    shelf.hold(Name::new(alloc, name)?, bytes)?;
    Ok(())
}

/// The row's words, or else the table's, or else those of `plan` over the three texts.
fn words_of(alloc: Global, row: &Json, table: &Json) -> Result<Vec<Name>, Trouble> {
    match said(row, table, "words") {
        Some(json) => names_in(alloc, array(json)),
        None => plan_words(alloc),
    }
}

fn names_in(alloc: Global, words: &[Json]) -> Result<Vec<Name>, Trouble> {
    let mut names = Vec::new(alloc);
    for word in words {
        names.push(Name::new(alloc, string(word, "words")?)?)?;
    }
    Ok(names)
}

fn plan_words(alloc: Global) -> Result<Vec<Name>, Trouble> {
    let mut words = Vec::new(alloc);
    words.push(Name::new(alloc, "plan")?)?;
    for word in FILES {
        words.push(Name::new(alloc, word)?)?;
    }
    Ok(words)
}
