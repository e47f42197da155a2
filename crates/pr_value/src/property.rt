ghost use Rattle.std.specs.Prelude.{◌≡◌, IfOk};

use crate::kind::Kind;
use crate::memory::Memory;
use crate::symbol::Symbol;
use std::alloc::Global;

/// A declared property.
#[derive(PartialEq, Eq, Hash, Drop)]
pub struct Property {
    pub name: Symbol,
    pub kind: Kind,
}

impl Property {
    /// An equal property.
    pub fn copy(&self, alloc: Global) -> Result<Property, Memory>
        ensures { IfOk result (λ p. p ≡ self.now) }
    {
        Ok(Property {
            name: self.name.copy(alloc)?,
            kind: self.kind,
        })
    }
}
