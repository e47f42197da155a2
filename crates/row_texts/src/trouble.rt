use pr_value::{Memory, SymbolError};
use std::alloc::{AllocError, AllocFailed};
use std::{fmt, io};

/// Why the tables cannot be run.
#[derive(Debug, Drop)]
pub enum Trouble {
    Memory,
    /// A file could not be read, or the report not be written.
    System(io::Error),
    /// A file of tables is no JSON.
    NoJson(serde_json::Error),
    /// A row lacks a member, or has one of another form: its name.
    Misshapen(&'static str),
    /// A row names a text that is not there, or changes a piece that it does not have.
    NoText,
}

impl From<AllocError> for Trouble {
    fn from(_error: AllocError) -> Trouble {
        Trouble::Memory
    }
}

impl<T: Drop> From<AllocFailed<T>> for Trouble {
    fn from(_error: AllocFailed<T>) -> Trouble {
        Trouble::Memory
    }
}

impl From<Memory> for Trouble {
    fn from(_error: Memory) -> Trouble {
        Trouble::Memory
    }
}

impl From<SymbolError> for Trouble {
    fn from(error: SymbolError) -> Trouble {
        match error {
            SymbolError::NotASymbol => Trouble::Misshapen("a symbol"),
            SymbolError::Memory => Trouble::Memory,
        }
    }
}

impl From<io::Error> for Trouble {
    fn from(error: io::Error) -> Trouble {
        Trouble::System(error)
    }
}

impl From<serde_json::Error> for Trouble {
    fn from(error: serde_json::Error) -> Trouble {
        Trouble::NoJson(error)
    }
}

impl From<fmt::Error> for Trouble {
    fn from(_error: fmt::Error) -> Trouble {
        Trouble::Memory
    }
}
