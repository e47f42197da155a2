// Copies of syntax: one function for each part, and one loop over lists of parts.
ghost use Rattle.std.specs.Prelude.{◌≡◌, IfOk};

mod expr;
mod parts;
mod query;
mod rule_set;
mod sides;

use pr_value::{Items, Memory, Symbol};
use std::alloc::Global;

/// What can be copied where there is memory for it.
pub trait Copied: Drop {
    /// An equal value.
    fn copy(&self, alloc: Global) -> Result<Self, Memory>
        ensures { IfOk result (λ x. x ≡ self.now) };
}

impl Copied for Symbol {
    fn copy(&self, alloc: Global) -> Result<Symbol, Memory> {
        Symbol::copy(self, alloc)
    }
}

/// Equal parts in the same order.
pub fn copy_items<T: Copied>(alloc: Global, items: &[T]) -> Result<Items<T>, Memory>
    ensures { IfOk result (λ copies. copies ≡ items.now) }
{
    let mut copies = Items::new(alloc);
    for item in items {
        copies.push(item.copy(alloc)?)?;
    }
    Ok(copies)
}
