ghost use Rattle.query_build.specs.declared.refusal.QueryRefusal.TheVariants as refusal;
ghost use Rattle.std.specs.Prelude.{◌≡◌};

use pr_value::{Memory, Symbol};

/// Why a query builds no tree.
#[derive(Drop)]
pub enum QueryRefusal {
    /// It has more than 256 nodes.
    TooManyNodes,
    /// The operator is not declared.
    UnknownOperator { name: Symbol },
    /// The catalog lists files, and this is none of them.
    UnknownFile { name: Symbol },
    /// The operator has another number of inputs than it declares.
    Arity { name: Symbol },
    /// The property of a setting is not declared.
    UnknownProperty { name: Symbol },
    /// The setting of the property, or the catalog's value of a declared property of the file, is
    /// of another type, or one for the cost.
    WrongType { name: Symbol },
    Memory,
}

impl From<Memory> for QueryRefusal {
    ghost from_gives = { λ _ e. e ≡ refusal.Memory };

    fn from(_error: Memory) -> QueryRefusal {
        QueryRefusal::Memory
    }
}
