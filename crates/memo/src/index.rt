ghost use Rattle.std.specs.Prelude.{◌≡◌, true, IfOk, IfSome};
ghost use Rattle.derivation.specs.Table.{IsReflexive};
ghost use Rattle.derivation.specs.declared.terms.Term.{Term};
ghost use Rattle.memo.specs.Index.{IsEntry, Enters, LooksUp};

use derivation::{Label, Term};
use indexmap::IndexMap;
use pr_value::Memory;

/// Terms are equal exactly where they are the same.
fn equal_terms<L: Label>(_term: &Term<L>)
    ensures one { IsReflexive ⟦<Term<L> as PartialEq>⟧.eq }
    ensures same { (s t : Term L) → ⟦<Term<L> as PartialEq>⟧.eq s t ≡ true → s ≡ t }
{}

/// Looking a term up finds just what it leads to.
fn look_up_laws<L: Label>(term: &Term<L>)
    ensures { LooksUp ⟦<Term<L> as PartialEq>⟧.eq }
{
    equal_terms(term);
}

/// What the key leads to. Where it leads nowhere, it leads to the number from now on.
pub fn enter<L: Label + Drop>(
    index: &mut IndexMap<Term<L>, usize>,
    key: Term<L>,
    i: usize,
) -> Result<Option<usize>, Memory>
    ensures { IfOk result (λ found. Enters index.old.entries index.new.entries key i found) }
{
    look_up_laws(&key);
    if let Some(f) = index.get(&key).copied() {
        return Ok(Some(f));
    }
    index.insert(key, i)?;
    Ok(None)
}

/// A number that the key leads to.
pub fn find_key<L: Label + Drop>(index: &IndexMap<Term<L>, usize>, key: &Term<L>) -> Option<usize>
    ensures { IfSome result (IsEntry index.now.entries key.now) }
{
    look_up_laws(key);
    index.get(key).copied()
}
