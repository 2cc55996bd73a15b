// The operators and functions of formulas.

/// What stands between two operands.
#[derive(Clone, Copy, Debug, PartialEq, Eq)]
pub enum Operator {
    Or,
    And,
    Equals,
    NotEquals,
    Less,
    AtMost,
    Greater,
    AtLeast,
    In,
    Union,
    Intersect,
    Except,
    Plus,
    Minus,
    Join,
    Times,
    Divide,
    Remainder,
}

/// The levels of operators of two operands, the loosest first.
#[derive(Clone, Copy, Debug, PartialEq, Eq)]
pub enum Level {
    Or,
    And,
    /// `=`, `!=`, `<`, `<=`, `>`, `>=` and `in`, of which at most one stands between two operands of the next level.
    Comparison,
    /// `union`, `intersect` and `except`.
    Sets,
    /// `+`, `-` and `&`.
    Sums,
    /// `*`, `/` and `%`.
    Products,
}

/// A function of one set.
#[derive(Clone, Copy, Debug, PartialEq, Eq)]
pub enum Function {
    Count,
    Only,
    Min,
    Max,
}

/// What is made of a formula's values over a set.
#[derive(Clone, Copy, Debug, PartialEq, Eq)]
pub enum Gathering {
    /// `{f : x in s}`, their union.
    Union,
    /// `sum(f : x in s)`
    Sum,
}

/// For how many values a condition is asked to hold.
#[derive(Clone, Copy, Debug, PartialEq, Eq)]
pub enum Quantifier {
    Any,
    All,
}

/// What stands before one operand.
#[derive(Clone, Copy, Debug, PartialEq, Eq)]
pub enum Prefix {
    /// `-`
    Minus,
    /// `not`
    Not,
}
