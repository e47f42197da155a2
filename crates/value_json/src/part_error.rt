ghost use Rattle.std.specs.Prelude.{◌≡◌};
ghost use Rattle.value_json.specs.Errors.{of_symbol_error};
ghost use Rattle.value_json.specs.declared.part_error.PartError.TheVariants as part_error;

use pr_value::{Memory, SymbolError};
use std::alloc::{AllocError, AllocFailed};

/// Why a part of a catalog is not read.
#[derive(Clone, Copy, PartialEq, Eq)]
pub enum PartError {
    /// It is not as it must be.
    Misshapen,
    Memory,
}

impl From<Memory> for PartError {
    ghost from_gives = { λ _ e. e ≡ part_error.Memory };

    fn from(_error: Memory) -> PartError {
        PartError::Memory
    }
}

impl From<AllocError> for PartError {
    ghost from_gives = { λ _ e. e ≡ part_error.Memory };

    fn from(_error: AllocError) -> PartError {
        PartError::Memory
    }
}

impl<T: Drop> From<AllocFailed<T>> for PartError {
    ghost from_gives = { λ _ e. e ≡ part_error.Memory };

    fn from(_error: AllocFailed<T>) -> PartError {
        PartError::Memory
    }
}

impl From<SymbolError> for PartError {
    ghost from_gives = { λ e f. f ≡ of_symbol_error e };

    fn from(error: SymbolError) -> PartError {
        match error {
            SymbolError::NotASymbol => PartError::Misshapen,
            SymbolError::Memory => PartError::Memory,
        }
    }
}
