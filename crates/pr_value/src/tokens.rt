ghost use Rattle.std.specs.Prelude.{◌≡◌, ◌<◌, ◌++◌, ◌∷◌, [], Some, length, map, slice_get, slice_index, OnOk, OnErr};
ghost use Rattle.pr_value.specs.Placed.{tokens_in};

use crate::memory::Memory;
use crate::token::Token;
use std::alloc::Global;
use std::marker::Model;

/// The tokens of a text, each with the offset of its first byte, and the text's length in bytes.
#[derive(Drop)]
pub struct Tokens {
    tokens: Vec<Token>,
    places: Vec<usize>,
    end: usize,
}

impl Model for Tokens {
    ghost use Rattle.std.specs.Prelude.{◌≡◌, length};
    ghost use Rattle.std.specs.List.{zip};
    ghost use Rattle.pr_value.specs.Placed.{Placed};

    ghost Value = { Placed };

    ghost view = { λ t. record { placed = zip t.tokens.items t.places.items; end = t.end } };

    ghost invariant = { λ t. length t.tokens.items ≡ length t.places.items };
}

#[tactic(auto, using(crate::proofs::ZipLaws::zip_laws))]
impl Tokens {
    /// No tokens yet, of a text of `end` bytes. It takes no memory.
    pub fn new(alloc: Global, end: usize) -> Tokens
        ensures { result ≡ record { placed = []; end = end } }
    {
        Tokens {
            tokens: Vec::new(alloc),
            places: Vec::new(alloc),
            end,
        }
    }

    /// Appends a token with its offset.
    pub fn push(&mut self, token: Token, place: usize) -> Result<(), Memory>
        ensures ok { OnOk result (self.new ≡ record self.old { placed = self.old.placed ++ (token, place) ∷ [] }) }
        ensures err { OnErr result (self.new ≡ self.old) }
    {
        self.places.push(place)?;
        match self.tokens.push(token) {
            Ok(()) => Ok(()),
            Err(_) => {
                self.places.pop();
                Err(Memory)
            }
        }
    }

    /// The token at a place in the list, from 0.
    pub fn token(&self, i: usize) -> &Token
        requires { i < length self.now.placed }
        ensures { slice_get (tokens_in self.now) i ≡ Some result.now }
    {
        &self.tokens[i]
    }

    /// The offset of the token at a place in the list, from 0.
    pub fn place(&self, i: usize) -> usize
        requires { i < length self.now.placed }
        ensures { slice_get (map (λ p. p.1) self.now.placed) i ≡ Some result }
    {
        self.places[i]
    }

    pub fn count(&self) -> usize
        ensures { result ≡ length self.now.placed }
    {
        self.tokens.len()
    }

    /// The length of the text in bytes.
    pub fn end(&self) -> usize
        ensures { result ≡ self.now.end }
    {
        self.end
    }

    /// The tokens without their offsets.
    pub fn as_slice(&self) -> &[Token]
        ensures { result.now ≡ tokens_in self.now }
    {
        self.tokens.as_slice()
    }
}
