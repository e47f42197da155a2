ghost use Rattle.std.specs.Cmp.{decided, partial_equiv_from_equiv};
ghost use Rattle.std.specs.Hash.{same_Alike};
ghost use Rattle.std.specs.Prelude.{◌≡◌, ◌<◌, [], ◌∷◌, ◌++◌, Some, length, slice_get, IfOk, OnOk, OnErr};
ghost use Rattle.pr_value.specs.Hashed.{hashed_symbols};
ghost use Rattle.pr_value.specs.SymbolSets.{same_list};
ghost use Rattle.pr_value.specs.EqualityLaws.{same_list-Decides};

use crate::memory::Memory;
use crate::symbol::Symbol;
use crate::symbols::{copy_symbols, same_symbols};
use std::alloc::Global;
use std::hash::{Hash, Hasher};
use std::marker::Model;

/// A list of symbols.
#[derive(Drop)]
pub struct SymList {
    symbols: Vec<Symbol>,
}

impl Model for SymList {
    ghost use Rattle.std.specs.Prelude.{List, ℕ};
    ghost use Rattle.std.specs.Coded.{coded_list, coded_ℕ};

    ghost Value = { List (List ℕ) };

    ghost coded = { coded_list (coded_list coded_ℕ) };

    ghost view = { λ l. l.symbols.items };
}

impl SymList {
    /// An empty list, which takes no memory yet.
    pub fn new(alloc: Global) -> SymList
        ensures { result ≡ [] }
    {
        SymList {
            symbols: Vec::new(alloc),
        }
    }

    /// The list of these symbols. It takes no memory.
    pub fn from_symbols(symbols: Vec<Symbol>) -> SymList
        ensures { result ≡ symbols.items }
    {
        SymList { symbols }
    }

    /// Appends a symbol.
    pub fn push(&mut self, s: Symbol) -> Result<(), Memory>
        ensures ok { OnOk result (self.new ≡ self.old ++ s ∷ []) }
        ensures err { OnErr result (self.new ≡ self.old) }
    {
        self.symbols.push(s)?;
        Ok(())
    }

    pub fn count(&self) -> usize
        ensures { result ≡ length self.now }
    {
        self.symbols.len()
    }

    /// The symbol at a place, from 0.
    pub fn at(&self, i: usize) -> &Symbol
        requires { i < length self.now }
        ensures { slice_get self.now i ≡ Some result.now }
    {
        &self.symbols[i]
    }

    pub fn as_slice(&self) -> &[Symbol]
        ensures { result.now ≡ self.now }
    {
        self.symbols.as_slice()
    }

    /// An equal list.
    pub fn copy(&self, alloc: Global) -> Result<SymList, Memory>
        ensures { IfOk result (λ l. l ≡ self.now) }
    {
        let symbols = copy_symbols(alloc, self.symbols.as_slice())?;
        Ok(SymList { symbols })
    }
}

impl PartialEq for SymList {
    ghost eq = { same_list };

    ghost laws = { partial_equiv_from_equiv (decided same_list same_list-Decides) };

    fn eq(&self, other: &SymList) -> bool {
        same_symbols(self.as_slice(), other.as_slice())
    }
}

impl Eq for SymList {
    ghost laws = { decided same_list same_list-Decides };
}

impl Hash for SymList {
    ghost hash_input = { hashed_symbols };

    ghost respects_eq = { (same_Alike hashed_symbols same_list-Decides).fed };

    fn hash<H: Hasher>(&self, state: &mut H) {
        self.symbols.hash(state);
    }
}
