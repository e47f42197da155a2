use pr_value::Kind;

/// The built-in functions.
#[derive(Clone, Copy, PartialEq, Eq)]
pub enum Builtin {
    If,
    Not,
    Min,
    Max,
    Log2,
    Union,
    Minus,
    Meet,
    Has,
    Subset,
    Size,
    Length,
    At,
    Prefix,
    Concat,
    Elems,
    /// A look-up in a table, by one to four keys, of a number, and so on.
    NumAt,
    TruthAt,
    SymbolAt,
    SetAt,
    ListAt,
}

/// A name, the function that it means, what that takes and what it gives.
pub struct Row(
    pub &'static [u8],
    pub Builtin,
    pub &'static [Kind],
    pub Kind,
);

const NUM: Kind = Kind::Num;

const TRUTH: Kind = Kind::Truth;

const SYMBOL: Kind = Kind::Symbol;

const SET: Kind = Kind::Set;

const LIST: Kind = Kind::List;

// What a look-up takes: a table's name and keys.
const ONE_KEY: &[Kind] = &[SYMBOL, SYMBOL];

const TWO_KEYS: &[Kind] = &[SYMBOL, SYMBOL, SYMBOL];

const THREE_KEYS: &[Kind] = &[SYMBOL, SYMBOL, SYMBOL, SYMBOL];

const FOUR_KEYS: &[Kind] = &[SYMBOL, SYMBOL, SYMBOL, SYMBOL, SYMBOL];

/// The built-in functions, which have several rows where they take several types.
pub const BUILTINS: [Row; 40] = [
    Row(b"if", Builtin::If, &[TRUTH, NUM, NUM], NUM),
    Row(b"if", Builtin::If, &[TRUTH, TRUTH, TRUTH], TRUTH),
    Row(b"if", Builtin::If, &[TRUTH, SYMBOL, SYMBOL], SYMBOL),
    Row(b"if", Builtin::If, &[TRUTH, SET, SET], SET),
    Row(b"if", Builtin::If, &[TRUTH, LIST, LIST], LIST),
    Row(b"not", Builtin::Not, &[TRUTH], TRUTH),
    Row(b"min", Builtin::Min, &[NUM, NUM], NUM),
    Row(b"max", Builtin::Max, &[NUM, NUM], NUM),
    Row(b"log2", Builtin::Log2, &[NUM], NUM),
    Row(b"union", Builtin::Union, &[SET, SET], SET),
    Row(b"minus", Builtin::Minus, &[SET, SET], SET),
    Row(b"meet", Builtin::Meet, &[SET, SET], SET),
    Row(b"has", Builtin::Has, &[SET, SYMBOL], TRUTH),
    Row(b"subset", Builtin::Subset, &[SET, SET], TRUTH),
    Row(b"size", Builtin::Size, &[SET], NUM),
    Row(b"length", Builtin::Length, &[LIST], NUM),
    Row(b"at", Builtin::At, &[LIST, NUM], SYMBOL),
    Row(b"prefix", Builtin::Prefix, &[LIST, LIST], TRUTH),
    Row(b"concat", Builtin::Concat, &[LIST, LIST], LIST),
    Row(b"elems", Builtin::Elems, &[LIST], SET),
    Row(b"num_at", Builtin::NumAt, ONE_KEY, NUM),
    Row(b"num_at", Builtin::NumAt, TWO_KEYS, NUM),
    Row(b"num_at", Builtin::NumAt, THREE_KEYS, NUM),
    Row(b"num_at", Builtin::NumAt, FOUR_KEYS, NUM),
    Row(b"truth_at", Builtin::TruthAt, ONE_KEY, TRUTH),
    Row(b"truth_at", Builtin::TruthAt, TWO_KEYS, TRUTH),
    Row(b"truth_at", Builtin::TruthAt, THREE_KEYS, TRUTH),
    Row(b"truth_at", Builtin::TruthAt, FOUR_KEYS, TRUTH),
    Row(b"sym_at", Builtin::SymbolAt, ONE_KEY, SYMBOL),
    Row(b"sym_at", Builtin::SymbolAt, TWO_KEYS, SYMBOL),
    Row(b"sym_at", Builtin::SymbolAt, THREE_KEYS, SYMBOL),
    Row(b"sym_at", Builtin::SymbolAt, FOUR_KEYS, SYMBOL),
    Row(b"set_at", Builtin::SetAt, ONE_KEY, SET),
    Row(b"set_at", Builtin::SetAt, TWO_KEYS, SET),
    Row(b"set_at", Builtin::SetAt, THREE_KEYS, SET),
    Row(b"set_at", Builtin::SetAt, FOUR_KEYS, SET),
    Row(b"list_at", Builtin::ListAt, ONE_KEY, LIST),
    Row(b"list_at", Builtin::ListAt, TWO_KEYS, LIST),
    Row(b"list_at", Builtin::ListAt, THREE_KEYS, LIST),
    Row(b"list_at", Builtin::ListAt, FOUR_KEYS, LIST),
];
