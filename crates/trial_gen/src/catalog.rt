// The catalog of a trial.
ghost use Rattle.std.specs.Prelude.{◌≡◌, ◌≤◌, IfOk};
ghost use Rattle.std.specs.String.{string_bytes};
ghost use Rattle.trial_gen.specs.Texts as texts;

use std::alloc::{AllocError, Global};

/// The catalog of files 1 to `number`.
pub fn catalog_text(alloc: Global, number: u64) -> Result<String, AllocError>
    requires some { 1 ≤ number }
    requires few { number ≤ 8 }
    ensures { IfOk result (λ text. string_bytes text ≡ texts.catalog number) }
{
    let members = members(alloc, number)?;
    let rows = rows(alloc, number)?;
    let text = format!(in alloc; "{{\"files\":{{{members}}},\"tables\":{{\"card\":[{rows}]}}}}")?;
    Ok(text)
}

fn members(alloc: Global, number: u64) -> Result<String, AllocError>
    requires some { 1 ≤ number }
    requires few { number ≤ 8 }
    ensures { IfOk result (λ text. string_bytes text ≡ texts.joined texts.member number) }
{
    let mut text = member(alloc, 1)?;
    for before in 1..number {
        let next = member(alloc, before + 1)?;
        text = format!(in alloc; "{text},{next}")?;
    }
    Ok(text)
}

fn rows(alloc: Global, number: u64) -> Result<String, AllocError>
    requires some { 1 ≤ number }
    requires few { number ≤ 8 }
    ensures { IfOk result (λ text. string_bytes text ≡ texts.joined texts.row number) }
{
    let mut text = row(alloc, 1)?;
    for before in 1..number {
        let next = row(alloc, before + 1)?;
        text = format!(in alloc; "{text},{next}")?;
    }
    Ok(text)
}

/// The file's member of the catalog's files.
fn member(alloc: Global, i: u64) -> Result<String, AllocError>
    requires { i ≤ 8 }
    ensures { IfOk result (λ text. string_bytes text ≡ texts.member i) }
{
    let card = card(i);
    let index = index(i);
    let text = format!(in alloc;
        "\"f{i}\":{{\"card\":{card},\"files\":{{\"set\":[\"f{i}\"]}},\"index\":\"{index}\"}}"
    )?;
    Ok(text)
}

/// The file's row of the table of cards.
fn row(alloc: Global, i: u64) -> Result<String, AllocError>
    requires { i ≤ 8 }
    ensures { IfOk result (λ text. string_bytes text ≡ texts.row i) }
{
    let card = card(i);
    let text = format!(in alloc; "{{\"keys\":[\"f{i}\"],\"value\":{card}}}")?;
    Ok(text)
}

fn card(i: u64) -> u64
    requires { i ≤ 8 }
    ensures { result ≡ texts.card i }
{
    1 + (37 * i) % 101
}

fn index(i: u64) -> &'static str
    ensures { result.now ≡ texts.index i }
{
    if i % 2 == 1 { "k" } else { "-" }
}
