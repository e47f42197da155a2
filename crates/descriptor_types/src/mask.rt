ghost use Rattle.std.specs.Prelude.{◌≡◌, ◌<◌, [], ◌∷◌, ◌++◌, Some, length, slice_get, IfOk, OnOk, OnErr};

use pr_value::Memory;
use std::alloc::Global;
use std::marker::Model;

/// Which properties are meant, by their places.
#[derive(Drop)]
pub struct Mask {
    on: Vec<bool>,
}

impl Model for Mask {
    ghost use Rattle.std.specs.Prelude.{List, Bool};

    ghost Value = { List Bool };

    ghost view = { λ m. m.on.items };
}

impl Mask {
    /// A mask of no places, which takes no memory yet.
    pub fn new(alloc: Global) -> Mask
        ensures { result ≡ [] }
    {
        Mask {
            on: Vec::new(alloc),
        }
    }

    /// Says of the next place whether it is meant. The mask is unchanged after an error.
    pub fn push(&mut self, on: bool) -> Result<(), Memory>
        ensures ok { OnOk result (self.new ≡ self.old ++ on ∷ []) }
        ensures err { OnErr result (self.new ≡ self.old) }
    {
        self.on.push(on)?;
        Ok(())
    }

    pub fn count(&self) -> usize
        ensures { result ≡ length self.now }
    {
        self.on.len()
    }

    /// Whether the property at a place is meant.
    pub fn on(&self, p: usize) -> bool
        requires { p < length self.now }
        ensures { slice_get self.now p ≡ Some result }
    {
        self.on[p]
    }

    /// An equal mask.
    pub fn copy(&self, alloc: Global) -> Result<Mask, Memory>
        ensures { IfOk result (λ m. m ≡ self.now) }
    {
        Ok(Mask {
            on: Vec::from_slice(alloc, self.on.as_slice())?,
        })
    }
}
