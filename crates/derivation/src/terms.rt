ghost use Rattle.std.specs.Prelude.{◌≡◌, ◌<◌, [], All, length, slice_get, take, option_copied, Some, true, IfOk, OnOk, OnErr};
ghost use Rattle.derivation.specs.Table.{IsAdded, IsReflexive, Inserts, AreDistinct, AreEarlier, AreOverOne, IsOverOne, term};
ghost use Rattle.derivation.specs.declared.terms.Term.{Term};

use crate::label::Label;
use crate::numbers::Numbers;
use indexmap::IndexSet;
use pr_value::Memory;
use std::alloc::Global;
use std::marker::Model;

/// A label over numbers.
#[derive(PartialEq, Eq, Hash, Drop)]
pub struct Term<L> {
    pub label: L,
    pub inputs: Numbers,
}

/// Terms are equal exactly where they are the same.
fn equal_terms<L: Label>(_term: &Term<L>)
    ensures one { IsReflexive ⟦<Term<L> as PartialEq>⟧.eq }
    ensures same { (s t : Term L) → ⟦<Term<L> as PartialEq>⟧.eq s t ≡ true → s ≡ t }
{}

/// A term that is put into a table leaves a table.
fn term_laws<L: Label>(term: &Term<L>)
    ensures { Inserts L.on_edge ⟦<Term<L> as PartialEq>⟧.eq }
{
    equal_terms(term);
}

/// Numbered terms, no two the same, each over terms of smaller numbers: the number of a term
/// stands for a whole tree. A label on an edge stands over one input.
#[derive(Drop)]
pub struct Terms<L: Label> {
    set: IndexSet<Term<L>>,
}

impl<L: Label> Model for Terms<L> {
    ghost use Rattle.std.specs.Prelude.{List};
    ghost use Rattle.derivation.specs.declared.terms.Term.{Term};
    ghost use Rattle.derivation.specs.Table.{IsTable};

    ghost Value = { List (Term L) };

    ghost view = { λ t. t.set.keys };

    ghost invariant = { λ t. IsTable L.on_edge t.set.keys };
}

impl<L: Label + Drop> Terms<L> {
    /// No terms, which takes no memory yet.
    pub fn new(alloc: Global) -> Self
        ensures { result ≡ [] }
    {
        Terms {
            set: IndexSet::new(alloc),
        }
    }

    pub fn count(&self) -> usize
        ensures { result ≡ length self.now }
    {
        self.set.len()
    }

    /// The term of a number, if it is there.
    pub fn at(&self, n: usize) -> Option<&Term<L>>
        ensures { option_copied result ≡ slice_get self.now n }
    {
        self.set.get_index(n)
    }

    /// The term of a number that is there.
    pub fn term(&self, n: usize) -> &Term<L>
        requires { n < length self.now }
        ensures { slice_get self.now n ≡ Some result.now }
    {
        &self.set[n]
    }

    pub fn label(&self, n: usize) -> &L
        requires { n < length self.now }
        ensures { (t : Term L) × (slice_get self.now n ≡ Some t) × (result.now ≡ t.label) }
    {
        &self.term(n).label
    }

    pub fn inputs(&self, n: usize) -> &[usize]
        requires { n < length self.now }
        ensures { (t : Term L) × (slice_get self.now n ≡ Some t) × (result.now ≡ t.inputs) }
    {
        self.term(n).inputs.as_slice()
    }

    /// No two terms are the same, each stands over earlier ones, and labels on edges over one.
    pub fn sound(&self)
        ensures distinct { AreDistinct self.now }
        ensures earlier { AreEarlier self.now }
        ensures over_one { AreOverOne L.on_edge self.now }
    {
        let _set = &self.set;
    }

    /// The number of a label over terms that are there. The terms are unchanged after an error.
    pub fn add(&mut self, alloc: Global, label: L, inputs: &[usize]) -> Result<usize, Memory>
        requires below { All (λ n. n < length self.old) inputs.now }
        requires over_one { IsOverOne L.on_edge (term label inputs.now) }
        ensures kept { take (length self.old) self.new ≡ self.old }
        ensures there { IfOk result (λ n. n < length self.new) }
        ensures at { IfOk result (λ n. slice_get self.new n ≡ Some (term label inputs.now)) }
        ensures added { OnOk result (IsAdded self.old self.new (term label inputs.now)) }
        ensures err { OnErr result (self.new ≡ self.old) }
    {
        let inputs = Numbers::from_slice(alloc, inputs)?;
        let key = Term { label, inputs };
        term_laws(&key);
        match self.set.insert_full(key) {
            Ok((n, _)) => Ok(n),
            Err(_) => Err(Memory),
        }
    }
}
