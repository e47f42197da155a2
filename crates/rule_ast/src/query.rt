use pr_value::{Items, Symbol};

/// The value of a setting.
#[derive(Debug, Drop)]
pub enum Literal {
    Number(u64),
    Truth(bool),
    Sym(Symbol),
    SetOf(Items<Symbol>),
    ListOf(Items<Symbol>),
}

/// `property = value`
#[derive(Debug, Drop)]
pub struct Setting {
    pub property: Symbol,
    pub value: Literal,
}

/// A query as it is written.
#[derive(Debug, Drop)]
pub enum QueryText {
    /// `file name`
    File(Symbol),
    /// `op{settings}(inputs)`, without braces where there are no settings.
    Node {
        op: Symbol,
        settings: Items<Setting>,
        inputs: Items<QueryText>,
    },
}
