/// Why tokens are no rule set or query. Offsets are in bytes from the start of the text.
#[derive(Clone, Copy, PartialEq, Eq, Debug)]
pub enum SyntaxError {
    /// With the token at this offset, or the end of the text, no text of the grammar goes on.
    BadSyntax { at: usize },
    /// An expression or a side of a rule past level 64, or a query past level 256, begins at this
    /// offset.
    TooDeep { at: usize },
    Memory,
}
