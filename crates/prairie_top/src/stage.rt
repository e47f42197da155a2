use catalog::CatalogPart;
use pr_value::{Memory, Symbol};
use rule_types::RefusalKind;

/// Why a text is refused. Offsets are in bytes from the start of the text.
#[derive(Drop)]
pub enum Refusal {
    /// It has more bytes than such a text may have.
    TooLong,
    /// No token begins at this offset.
    BadByte { at: usize },
    /// A number past 10^18 begins at this offset.
    NumberTooBig { at: usize },
    /// A name of more than 64 bytes begins at this offset.
    NameTooLong { at: usize },
    /// The token at this offset goes on with no text of the grammar, or the text ends too early.
    BadSyntax { at: usize },
    /// A part that is nested too deep begins at this offset.
    TooDeep { at: usize },
    /// It is no JSON.
    NotJson,
    /// It is JSON, and this is the first part that is not as it must be.
    BadShape { part: CatalogPart },
    /// It is a rule set that is not accepted: the first condition that holds, and the name of the
    /// first declaration in which it does.
    NotAccepted { kind: RefusalKind, name: Symbol },
    /// It is a query of more than 256 nodes.
    TooManyNodes,
    /// It is a query with an operator that the rules do not declare.
    UnknownOperator { name: Symbol },
    /// It is a query over a file that the catalog does not list, though it lists files.
    UnknownFile { name: Symbol },
    /// It is a query with an operator over another number of inputs than is declared.
    Arity { name: Symbol },
    /// It is a query that sets a property which the rules do not declare.
    UnknownProperty { name: Symbol },
    /// It is a query that sets a property, or uses a file, to which a value of another type is
    /// given, or one for the cost.
    WrongType { name: Symbol },
    /// It is an accepted rule set with a T-rule. Such rule sets are not planned.
    Unbuilt,
}

/// Why bytes do not read as a value.
#[derive(Drop)]
pub enum TextError {
    Refused(Refusal),
    Memory,
}

/// Why a text that was asked for is not had.
#[derive(Drop)]
pub enum Stop {
    Refused(Refusal),
    /// Its fetch failed.
    Failed,
    Memory,
}

impl From<Memory> for TextError {
    ghost use Rattle.prairie_top.specs.declared.stage.TextError.TheVariants as errors;
    ghost use Rattle.std.specs.Prelude.{◌≡◌};

    ghost from_gives = { λ _ e. e ≡ errors.Memory };

    fn from(_error: Memory) -> TextError {
        TextError::Memory
    }
}
