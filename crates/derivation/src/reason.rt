ghost use Rattle.std.specs.Prelude.{◌≡◌};
ghost use Rattle.derivation.specs.declared.reason.PushError.TheVariants as error;

use pr_value::Memory;

/// Why a line holds, by the numbers of earlier lines, a place of an input and a rule.
#[derive(Clone, Copy, PartialEq, Eq, Debug)]
pub enum Reason {
    /// The query equals itself.
    Query,
    /// An input of a line's right tree equals itself.
    Part { of: usize, at: usize },
    /// A line's right tree equals what a rule makes of it.
    Rule { of: usize, rule: usize },
    /// A line read from right to left.
    Turn { of: usize },
    /// Two lines, the one ending where the other begins.
    Chain { first: usize, second: usize },
    /// A line's right tree equals that tree with an input replaced by what a line equates it to.
    Inside { of: usize, at: usize, by: usize },
}

/// An equation between two terms, by their numbers.
#[derive(Clone, Copy, PartialEq, Eq)]
pub struct Line {
    pub left: usize,
    pub right: usize,
    pub why: Reason,
    /// The most uses of rules on a way down through the lines that it rests on.
    pub depth: usize,
}

/// Why a line was not added.
#[derive(Clone, Copy, PartialEq, Eq, Debug)]
pub enum PushError {
    /// The reason justifies no line.
    BadReason,
    Memory,
}

impl From<Memory> for PushError {
    ghost from_gives = { λ _ e. e ≡ error.Memory };

    fn from(_error: Memory) -> PushError {
        PushError::Memory
    }
}
