ghost use Rattle.std.specs.Prelude.{◌≡◌, ◌↔◌, true, false, IfOk, IsErrOf};
ghost use Rattle.std.specs.List.{list_all};
ghost use Rattle.std.specs.Str.{bytes_eq};
ghost use Rattle.std.proofs.Common.{rules};
ghost use Rattle.std.specs.Cmp.Rules.{comparing, hashing};
ghost use Rattle.std.specs.Hash as fed;
ghost use Rattle.pr_value.specs.Symbols.{dash, is_letter, is_digit, is_word_byte, is_word, is_name, is_symbol};
ghost use Rattle.pr_value.specs.declared.symbol.SymbolError.TheVariants as symbol_error;

use crate::memory::Memory;
use std::alloc::{AllocError, Global};
use std::hash::{Hash, Hasher};
use std::marker::Model;

/// A name or `-`, which contracts see as its bytes. A name is an ASCII letter or `_` and then
/// letters, digits and `_`, at most 64 bytes in all.
#[derive(Debug, Drop)]
pub struct Symbol {
    bytes: Vec<u8>,
}

impl Model for Symbol {
    ghost use Rattle.std.specs.Prelude.{◌≡◌, List, ℕ, true};
    ghost use Rattle.std.specs.Coded.{coded_list, coded_ℕ};
    ghost use Rattle.pr_value.specs.Symbols.{is_symbol};

    ghost Value = { List ℕ };

    ghost coded = { coded_list coded_ℕ };

    ghost view = { λ s. s.bytes.items };

    ghost invariant = { λ s. is_symbol s.bytes.items ≡ true };
}

/// Why a text is no symbol.
#[derive(Clone, Copy, PartialEq, Eq, Debug)]
pub enum SymbolError {
    /// It is neither a name nor `-`.
    NotASymbol,
    Memory,
}

impl From<AllocError> for SymbolError {
    ghost from_gives = { λ _ e. e ≡ symbol_error.Memory };

    fn from(_error: AllocError) -> SymbolError {
        SymbolError::Memory
    }
}

/// An ASCII letter or `_`.
pub fn is_letter(b: u8) -> bool
    ensures { result ≡ is_letter b }
{
    b.is_ascii_alphabetic() || b == b'_'
}

/// A decimal digit.
pub fn is_digit(b: u8) -> bool
    ensures { result ≡ is_digit b }
{
    b.is_ascii_digit()
}

/// A letter or a digit, as they stand behind a word's first letter.
pub fn is_word_byte(b: u8) -> bool
    ensures { result ≡ is_word_byte b }
{
    is_letter(b) || is_digit(b)
}

fn are_word_bytes(text: &[u8]) -> bool
    ensures { result ≡ list_all is_word_byte text.now }
{
    text.iter().all(|b| is_word_byte(*b))
}

fn is_word(text: &[u8]) -> bool
    ensures { result ≡ is_word text.now }
{
    match text.split_first() {
        Some((first, rest)) => is_letter(*first) && are_word_bytes(rest),
        None => false,
    }
}

/// Whether a text is a name.
pub fn is_name(text: &[u8]) -> bool
    ensures { result ≡ is_name text.now }
{
    is_word(text) && text.len() <= 64
}

fn is_symbol(text: &[u8]) -> bool
    ensures { result ≡ is_symbol text.now }
{
    is_name(text) || text == b"-".as_slice()
}

impl Symbol {
    /// The symbol of these bytes.
    pub fn new(alloc: Global, text: &[u8]) -> Result<Symbol, SymbolError>
        ensures same { IfOk result (λ s. s ≡ text.now) }
        ensures refused { IsErrOf result SymbolError.NotASymbol ↔ (is_symbol text.now ≡ false) }
    {
        if !is_symbol(text) {
            return Err(SymbolError::NotASymbol);
        }
        Ok(Symbol {
            bytes: Vec::from_slice(alloc, text)?,
        })
    }

    /// The symbol `-`.
    pub fn dash(alloc: Global) -> Result<Symbol, Memory>
        ensures { IfOk result (λ s. s ≡ dash) }
    {
        Ok(Symbol {
            bytes: Vec::from_slice(alloc, b"-")?,
        })
    }

    pub fn as_slice(&self) -> &[u8]
        ensures same { result.now ≡ self.now }
        ensures symbol { is_symbol self.now ≡ true }
    {
        self.bytes.as_slice()
    }

    /// An equal symbol.
    pub fn copy(&self, alloc: Global) -> Result<Symbol, Memory>
        ensures { IfOk result (λ s. s ≡ self.now) }
    {
        Ok(Symbol {
            bytes: Vec::from_slice(alloc, self.bytes.as_slice())?,
        })
    }
}

impl PartialEq for Symbol {
    ghost eq = { λ a b. bytes_eq a b };

    ghost laws = { Prim.search (comparing, rules) };

    fn eq(&self, other: &Symbol) -> bool {
        self.bytes.as_slice() == other.bytes.as_slice()
    }
}

impl Eq for Symbol {
    ghost laws = { Prim.search (comparing, rules) };
}

impl Hash for Symbol {
    ghost hash_input = { λ s. fed.slice fed.u8 s };

    ghost respects_eq = { Prim.search (hashing, rules) };

    fn hash<H: Hasher>(&self, state: &mut H) {
        self.bytes.hash(state);
    }
}
