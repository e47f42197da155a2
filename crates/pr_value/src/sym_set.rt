ghost use Rattle.std.specs.Cmp.{decided, partial_equiv_from_equiv};
ghost use Rattle.std.specs.Hash.{same_Alike};
ghost use Rattle.std.specs.Prelude.{◌≡◌, ◌<◌, ◌≤◌, [], ◌∷◌, ◌++◌, true, false, Some, ◌↔◌, length, take, drop, slice_get, IfOk, IfErr, IfSome, IsNone, OnOk, OnErr};
ghost use Rattle.pr_value.specs.SymbolSets.{ascends, contains, insert, set_of, union, meet, minus, subset, same_list};
ghost use Rattle.pr_value.specs.Hashed.{hashed_symbols};
ghost use Rattle.pr_value.specs.EqualityLaws.{same_list-Decides};

use crate::memory::Memory;
use crate::symbol::Symbol;
use crate::symbols::{copy_symbols, same_symbols};
use std::alloc::Global;
use std::hash::{Hash, Hasher};
use std::marker::Model;

/// A set of symbols, which contracts see as the list of its members, ascending by bytes.
#[derive(Drop)]
pub struct SymSet {
    members: Vec<Symbol>,
}

impl Model for SymSet {
    ghost use Rattle.std.specs.Prelude.{◌≡◌, List, ℕ, true};
    ghost use Rattle.std.specs.Coded.{coded_list, coded_ℕ};
    ghost use Rattle.pr_value.specs.SymbolSets.{ascends};

    ghost Value = { List (List ℕ) };

    ghost coded = { coded_list (coded_list coded_ℕ) };

    ghost view = { λ s. s.members.items };

    ghost invariant = { λ s. ascends s.members.items ≡ true };
}

// Where the symbol stands among members that ascend, or where it would.
fn place_of(members: &[Symbol], s: &Symbol) -> Result<usize, usize>
    requires { ascends members.now ≡ true }
    ensures found { IfOk result (λ i. slice_get members.now i ≡ Some s.now) }
    ensures one { IfOk result (λ _. contains members.now s.now ≡ true) }
    ensures missing { IfErr result (λ i. (i ≤ length members.now)
        × (contains members.now s.now ≡ false)
        × (insert s.now members.now ≡ take i members.now ++ s.now ∷ drop i members.now)) }
{
    members.binary_search(s)
}

#[tactic(auto, using(crate::proofs::SetLaws::set_laws))]
impl SymSet {
    /// The empty set, which takes no memory yet.
    pub fn new(alloc: Global) -> SymSet
        ensures { result ≡ [] }
    {
        SymSet {
            members: Vec::new(alloc),
        }
    }

    /// The set of these symbols, which may come in any order and more than once.
    pub fn from_symbols(alloc: Global, mut symbols: Vec<Symbol>) -> Result<SymSet, Memory>
        ensures { IfOk result (λ s. s ≡ set_of symbols.items) }
    {
        symbols.as_mut_slice().sort(alloc)?;
        symbols.dedup();
        Ok(SymSet { members: symbols })
    }

    /// Puts a symbol into the set. The set is unchanged after an error.
    pub fn insert(&mut self, s: Symbol) -> Result<(), Memory>
        ensures ok { OnOk result (self.new ≡ insert s self.old) }
        ensures err { OnErr result (self.new ≡ self.old) }
    {
        match place_of(self.members.as_slice(), &s) {
            Ok(_) => Ok(()),
            Err(place) => {
                self.members.insert(place, s)?;
                Ok(())
            }
        }
    }

    /// The members of either set.
    pub fn union(&self, alloc: Global, other: &SymSet) -> Result<SymSet, Memory>
        ensures { IfOk result (λ s. s ≡ union self.now other.now) }
    {
        let mut all = copy_symbols(alloc, self.as_slice())?;
        for member in other.as_slice() {
            all.push(member.copy(alloc)?)?;
        }
        let union = SymSet::from_symbols(alloc, all)?;
        Ok(union)
    }

    /// The members of this set that are none of the other.
    pub fn minus(&self, alloc: Global, other: &SymSet) -> Result<SymSet, Memory>
        ensures { IfOk result (λ s. s ≡ minus self.now other.now) }
    {
        let mut members = Vec::new(alloc);
        for member in self.as_slice() {
            if !other.contains(member) {
                members.push(member.copy(alloc)?)?;
            }
        }
        Ok(SymSet { members })
    }

    /// The members of both sets.
    pub fn meet(&self, alloc: Global, other: &SymSet) -> Result<SymSet, Memory>
        ensures { IfOk result (λ s. s ≡ meet self.now other.now) }
    {
        let mut members = Vec::new(alloc);
        for member in self.as_slice() {
            if other.contains(member) {
                members.push(member.copy(alloc)?)?;
            }
        }
        Ok(SymSet { members })
    }

    /// Whether the symbol is a member.
    pub fn contains(&self, s: &Symbol) -> bool
        ensures { result ≡ contains self.now s.now }
    {
        place_of(self.members.as_slice(), s).is_ok()
    }

    /// The place of a member in the ascending order, from 0. There is none where the symbol is no
    /// member.
    pub fn find(&self, s: &Symbol) -> Option<usize>
        ensures found { IfSome result (λ i. slice_get self.now i ≡ Some s.now) }
        ensures missing { IsNone result ↔ (contains self.now s.now ≡ false) }
    {
        place_of(self.members.as_slice(), s).ok()
    }

    /// Whether each member is one of the other set.
    pub fn subset(&self, other: &SymSet) -> bool
        ensures { result ≡ subset self.now other.now }
    {
        self.members.iter().all(|member| other.contains(member))
    }

    /// How many members there are.
    pub fn len(&self) -> usize
        ensures count { result ≡ length self.now }
        ensures ascending { ascends self.now ≡ true }
    {
        self.members.len()
    }

    /// The member at a place in the ascending order, from 0.
    pub fn at(&self, i: usize) -> &Symbol
        requires { i < length self.now }
        ensures { slice_get self.now i ≡ Some result.now }
    {
        &self.members[i]
    }

    /// The members, ascending.
    pub fn as_slice(&self) -> &[Symbol]
        ensures same { result.now ≡ self.now }
        ensures ascending { ascends self.now ≡ true }
    {
        self.members.as_slice()
    }

    /// An equal set.
    pub fn copy(&self, alloc: Global) -> Result<SymSet, Memory>
        ensures { IfOk result (λ s. s ≡ self.now) }
    {
        let members = copy_symbols(alloc, self.members.as_slice())?;
        Ok(SymSet { members })
    }
}

impl PartialEq for SymSet {
    ghost eq = { same_list };

    ghost laws = { partial_equiv_from_equiv (decided same_list same_list-Decides) };

    fn eq(&self, other: &SymSet) -> bool {
        same_symbols(self.as_slice(), other.as_slice())
    }
}

impl Eq for SymSet {
    ghost laws = { decided same_list same_list-Decides };
}

impl Hash for SymSet {
    ghost hash_input = { hashed_symbols };

    ghost respects_eq = { (same_Alike hashed_symbols same_list-Decides).fed };

    fn hash<H: Hasher>(&self, state: &mut H) {
        self.members.hash(state);
    }
}
