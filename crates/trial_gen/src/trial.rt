// The texts of a trial.
ghost use Rattle.std.specs.Prelude.{◌≡◌, ◌≤◌, IfOk};
ghost use Rattle.trial_gen.specs.Rules as rules;
ghost use Rattle.trial_gen.specs.Texts as texts;

use crate::catalog::catalog_text;
use crate::query::query_text;
use crate::rules::sort_merge;
use pr_outside::Bytes;
use pr_value::Memory;
use std::alloc::Global;

/// The texts of one trial.
#[derive(Drop)]
pub struct Trial {
    pub rules: Bytes,
    pub catalog: Bytes,
    pub query: Bytes,
}

/// The texts of the trial over so many files, 1 to 8. The rules are the same for all.
pub fn make(alloc: Global, number: u64) -> Result<Trial, Memory>
    requires some { 1 ≤ number }
    requires few { number ≤ 8 }
    ensures rules { IfOk result (λ t. t.rules ≡ rules.sort_merge) }
    ensures catalog { IfOk result (λ t. t.catalog ≡ texts.catalog number) }
    ensures query { IfOk result (λ t. t.query ≡ texts.query number) }
{
    let rules = Bytes::new(alloc, sort_merge().as_bytes())?;
    let catalog = catalog_text(alloc, number)?;
    let query = query_text(alloc, number)?;
    Ok(Trial {
        rules,
        catalog: Bytes::new(alloc, catalog.as_bytes())?,
        query: Bytes::new(alloc, query.as_bytes())?,
    })
}
