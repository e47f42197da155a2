// The query of a trial.
ghost use Rattle.std.specs.Prelude.{◌≡◌, ◌≤◌, IfOk};
ghost use Rattle.std.specs.String.{string_bytes};
ghost use Rattle.trial_gen.specs.Texts as texts;

use std::alloc::{AllocError, Global};

/// The query over files 1 to `number`.
pub fn query_text(alloc: Global, number: u64) -> Result<String, AllocError>
    requires some { 1 ≤ number }
    requires few { number ≤ 8 }
    ensures { IfOk result (λ text. string_bytes text ≡ texts.query number) }
{
    let mut text = scan(alloc, 1)?;
    for before in 1..number {
        let next = scan(alloc, before + 1)?;
        text = format!(in alloc; "JOIN({text}, {next})")?;
    }
    Ok(text)
}

fn scan(alloc: Global, i: u64) -> Result<String, AllocError>
    ensures { IfOk result (λ text. string_bytes text ≡ texts.scan i) }
{
    let text = format!(in alloc; "RET(file f{i})")?;
    Ok(text)
}
