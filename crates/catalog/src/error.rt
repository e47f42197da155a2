ghost use Rattle.std.specs.Prelude.{◌≡◌};
ghost use Rattle.catalog.specs.declared.error.CatalogError.TheVariants as error;

use pr_value::Memory;

/// The parts of a catalog, in the order in which they are tried.
#[derive(Clone, Copy, PartialEq, Eq, Debug)]
pub enum CatalogPart {
    /// The text is an object.
    Root,
    /// `files` is an object.
    Files,
    /// Each file and each of its properties has a name, a file is an object, and a property's
    /// value is a catalog value.
    File,
    /// `tables` is an object, and each table has a name and is an array.
    Tables,
    /// A row has exactly `keys`, one to four symbols, and `value`, a catalog value; no two rows of a
    /// table have equal keys.
    Row,
}

/// Why a text is no catalog.
#[derive(Clone, Copy, PartialEq, Eq, Debug)]
pub enum CatalogError {
    /// It is no JSON.
    NotJson,
    /// This is the first part that is not as it must be.
    BadShape { part: CatalogPart },
    Memory,
}

impl From<Memory> for CatalogError {
    ghost from_gives = { λ _ e. e ≡ error.Memory };

    fn from(_error: Memory) -> CatalogError {
        CatalogError::Memory
    }
}
