//! Runs tables of rows: texts with what the program answers of them, and prints which rows come out
//! otherwise than they say.
#![tactic(auto)]

mod runs;

use row_texts::report::Report;
use row_texts::texts::Texts;
use row_texts::trouble::Trouble;
use serde_json::Value as Json;
use std::alloc::Global;
use std::env::Env;
use std::rt::Files;
use std::{env, fs};

fn main(rt: HostRuntime) -> Result<(), Trouble> {
    let report = report_of(&rt)?;
    print!(rt; "{}", report.lines.as_str())?;
    println!(rt;
        "{} rows came out as expected, {} otherwise",
        report.right, report.wrong
    )?;
    Ok(())
}

/// What the tables of the files come to that the words name.
fn report_of<R: Env + Files + AllocGlobal>(rt: &R) -> Result<Report, Trouble> {
    let alloc = rt.alloc();
    let mut texts = Texts::new(alloc);
    let mut report = Report::new(alloc);
    for name in env::args(rt)?.skip(1) {
        run_file(rt, name.as_str(), &mut texts, &mut report)?;
    }
    Ok(report)
}

/// Takes the texts of a file, and runs its tables.
fn run_file<R: Files + AllocGlobal>(
    rt: &R,
    name: &str,
    texts: &mut Texts,
    report: &mut Report,
) -> Result<(), Trouble> {
    let alloc = rt.alloc();
    let file = json_in(rt, name)?;
    texts.learn(alloc, &file)?;
    tables(alloc, &file, texts, report)
}

fn json_in<R: Files + AllocGlobal>(rt: &R, name: &str) -> Result<Json, Trouble> {
    let text = fs::read_to_string(rt, name)?;
    let json = Json::from_str(rt.alloc(), text.as_str())?;
    Ok(json)
}

/// Runs the tables of a file, by their kinds.
fn tables(alloc: Global, file: &Json, texts: &Texts, report: &mut Report) -> Result<(), Trouble> {
    for table in row_texts::members::items(file, "runs") {
        runs::run_table(alloc, table, texts, report)?;
    }
    for table in row_texts::members::items(file, "reads") {
        row_syntax::reads::read_table(alloc, table, texts, report)?;
    }
    for table in row_texts::members::items(file, "tokens") {
        row_syntax::tokens::token_table(alloc, table, report)?;
    }
    for table in row_texts::members::items(file, "values") {
        row_syntax::values::value_table(alloc, table, texts, report)?;
    }
    for table in row_texts::members::items(file, "prints") {
        row_syntax::prints::print_table(alloc, table, texts, report)?;
    }
    for table in row_texts::members::items(file, "roles") {
        row_syntax::roles::role_table(alloc, table, texts, report)?;
    }
    for table in row_texts::members::items(file, "steps") {
        row_trees::steps::step_table(alloc, table, texts, report)?;
    }
    Ok(())
}
