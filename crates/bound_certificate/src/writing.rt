ghost use Rattle.std.specs.Prelude.{◌≡◌, ◌≤◌, ◌++◌, ℕ, List, true, Some, IfOk, OnOk, OnErr};
ghost use Rattle.std.specs.List.{list_all};
ghost use Rattle.serde_json.specs.Data.{depth, string};
ghost use Rattle.serde_json.specs.Read.{max_depth};
ghost use Rattle.serde_json.specs.View.{view, members_view};
ghost use Rattle.pr_value.specs.Symbols.{is_symbol};
ghost use Rattle.bound_certificate.specs.Formed.{AreFine};
ghost use Rattle.bound_certificate.specs.Shape.{IsJson, Says, format_in};
ghost use Rattle.bound_certificate.specs.Written.{AreUsed, certificate_data, certificate_members, list_data, names_of};

use crate::certificate::Certificate;
use crate::cost::write_cost;
use crate::part::{push_all, write_list};
use pr_value::{Memory, SymSet, Symbol, Text};
use serde_json::{Map, Value as Json, put};
use std::alloc::Global;

/// Each symbol of the certificate once.
fn names_of(alloc: Global, c: &Certificate) -> Result<SymSet, Memory>
    ensures { IfOk result (λ s. s ≡ names_of c.now) }
{
    let mut symbols = Vec::new(alloc);
    push_all(alloc, c.nodes.as_slice(), &mut symbols)?;
    push_all(alloc, c.lines.as_slice(), &mut symbols)?;
    push_all(alloc, c.plan.as_slice(), &mut symbols)?;
    push_all(alloc, c.classes.as_slice(), &mut symbols)?;
    push_all(alloc, c.goals.as_slice(), &mut symbols)?;
    SymSet::from_symbols(alloc, symbols)
}

fn write_symbol(alloc: Global, symbol: &Symbol) -> Result<Json, Memory>
    ensures written { IfOk result (λ v. view v ≡ string symbol.now) }
    ensures symbol { IfOk result (λ _. is_symbol symbol.now ≡ true) }
{
    let bytes = symbol.as_slice();
    let text = String::from_utf8_lossy(alloc, bytes)?;
    Ok(Json::from(text))
}

/// The array of the symbols' texts.
fn write_names(alloc: Global, names: &[Symbol]) -> Result<Json, Memory>
    ensures written { IfOk result (λ v. view v ≡ list_data string names.now) }
    ensures symbols { IfOk result (λ _. list_all is_symbol names.now ≡ true) }
{
    let mut written = Vec::with_capacity(alloc, names.len())?;
    for name in names {
        written.push(write_symbol(alloc, name)?)?;
    }
    Ok(Json::from(written))
}

fn write_members(
    alloc: Global,
    names: &SymSet,
    c: &Certificate,
) -> Result<Map<String, Json>, Memory>
    ensures written { IfOk result
        (λ m. members_view m.entries ≡ certificate_members names.now c.now) }
    ensures symbols { IfOk result (λ _. list_all is_symbol names.now ≡ true) }
    ensures fine { IfOk result (λ _. AreFine c.now.nodes c.now.classes c.now.goals) }
{
    let mut members = Map::new(alloc);
    put(&mut members, alloc, "format", Json::from(2u64))?;
    put(
        &mut members,
        alloc,
        "verdict",
        write_cost(alloc, c.verdict)?,
    )?;
    put(
        &mut members,
        alloc,
        "names",
        write_names(alloc, names.as_slice())?,
    )?;
    put(
        &mut members,
        alloc,
        "nodes",
        write_list(alloc, names, c.nodes.as_slice())?,
    )?;
    put(
        &mut members,
        alloc,
        "lines",
        write_list(alloc, names, c.lines.as_slice())?,
    )?;
    put(&mut members, alloc, "line", Json::from(c.line))?;
    put(
        &mut members,
        alloc,
        "plan",
        write_list(alloc, names, c.plan.as_slice())?,
    )?;
    put(
        &mut members,
        alloc,
        "classes",
        write_list(alloc, names, c.classes.as_slice())?,
    )?;
    put(&mut members, alloc, "root", Json::from(c.root))?;
    put(
        &mut members,
        alloc,
        "goals",
        write_list(alloc, names, c.goals.as_slice())?,
    )?;
    Ok(members)
}

fn json_of(alloc: Global, c: &Certificate) -> Result<Json, Memory>
    ensures written { IfOk result (λ v. view v ≡ certificate_data c.now) }
    ensures shallow { IfOk result (λ v. depth (view v) ≤ max_depth) }
    ensures says { IfOk result (λ _. Says c.now (certificate_data c.now)) }
    ensures used { IfOk result (λ _. AreUsed c.now (certificate_data c.now)) }
{
    let names = names_of(alloc, c)?;
    let members = write_members(alloc, &names, c)?;
    Ok(Json::from(members))
}

/// The text of the certificate in format 2.
fn text_of(alloc: Global, c: &Certificate) -> Result<Vec<u8>, Memory>
    ensures json { IfOk result (λ b. IsJson b.items (certificate_data c.now)) }
    ensures says { IfOk result (λ _. Says c.now (certificate_data c.now)) }
    ensures used { IfOk result (λ _. AreUsed c.now (certificate_data c.now)) }
{
    let json = json_of(alloc, c)?;
    Ok(json.to_vec(alloc)?)
}

/// Appends the certificate in format 2, which reads as it. It is one line, and each of its names
/// stands in the certificate. The text is unchanged after an error.
pub fn write_certificate(alloc: Global, c: &Certificate, out: &mut Text) -> Result<(), Memory>
    ensures ok { OnOk result ((bytes : List ℕ) × (out.new ≡ out.old ++ bytes)
        × IsJson bytes (certificate_data c.now) × Says c.now (certificate_data c.now)) }
    ensures second { format_in (certificate_data c.now) ≡ Some true }
    ensures used { OnOk result (AreUsed c.now (certificate_data c.now)) }
    ensures err { OnErr result (out.new ≡ out.old) }
{
    let bytes = text_of(alloc, c)?;
    out.push_bytes(bytes.as_slice())?;
    Ok(())
}
