use pr_value::{Boxed, Items, Symbol};

/// The operators between two expressions, in the order of the grammar.
#[derive(Clone, Copy, PartialEq, Eq)]
pub enum BinOp {
    Add,
    Sub,
    Mul,
    Div,
    Equal,
    NotEqual,
    Less,
    LessEqual,
    Greater,
    GreaterEqual,
    And,
    Or,
}

/// What is made of the members of a set or list.
#[derive(Clone, Copy, PartialEq, Eq)]
pub enum FoldKind {
    Sum,
    Product,
    Any,
    All,
    Keep,
}

/// An expression.
#[derive(Drop)]
pub enum Expr {
    Number(u64),
    Truth(bool),
    Sym(Symbol),
    /// `{..}`
    SetOf(Items<Expr>),
    /// `[..]`
    ListOf(Items<Expr>),
    /// A helper's parameter or a fold's name.
    Var(Symbol),
    /// `desc.property`
    Read {
        desc: Symbol,
        property: Symbol,
    },
    /// `name(..)`
    Call {
        name: Symbol,
        args: Items<Expr>,
    },
    /// `(left op right)`
    Binary {
        left: Boxed<Expr>,
        op: BinOp,
        right: Boxed<Expr>,
    },
    /// `fold(name in over : body)`
    Fold {
        fold: FoldKind,
        name: Symbol,
        over: Boxed<Expr>,
        body: Boxed<Expr>,
    },
}

/// A statement.
#[derive(Drop)]
pub enum Stmt {
    /// `desc.property = value;`
    Set {
        desc: Symbol,
        property: Symbol,
        value: Expr,
    },
    /// `to = from;`
    Copy {
        to: Symbol,
        from: Symbol,
    },
}
