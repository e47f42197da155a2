/// Why a text has no tokens. Offsets are in bytes from the start of the text.
#[derive(Clone, Copy, PartialEq, Eq, Debug)]
pub enum LexError {
    /// No token begins at this offset.
    BadByte { at: usize },
    /// A number past 10^18 begins at this offset.
    NumberTooBig { at: usize },
    /// A name of more than 64 bytes begins at this offset, which in a quoted symbol lies behind
    /// the quote.
    NameTooLong { at: usize },
    Memory,
}
