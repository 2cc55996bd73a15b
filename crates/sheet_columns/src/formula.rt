//! Formulas, with column numbers for names and positions for variables.

use sheet_values::Name;
use sqlite_items::{Boxed, Items};

/// What is made of two sets.
#[derive(Clone, Copy, Debug, PartialEq, Eq)]
pub enum SetOperator {
    Union,
    Intersect,
    Except,
}

/// How two sets are compared.
#[derive(Clone, Copy, Debug, PartialEq, Eq)]
pub enum SetTest {
    /// `=`
    Equal,
    /// `!=`
    Unequal,
    /// `in`: every value of the left set is in the right one.
    Within,
}

/// How two values are compared by their order.
#[derive(Clone, Copy, Debug, PartialEq, Eq)]
pub enum OrderTest {
    /// `<`
    Less,
    /// `<=`
    AtMost,
    /// `>`
    Greater,
    /// `>=`
    AtLeast,
}

/// What is worked out from two numbers.
#[derive(Clone, Copy, Debug, PartialEq, Eq)]
pub enum ArithmeticOperator {
    Add,
    Subtract,
    Multiply,
    /// Truncates toward zero.
    Divide,
    /// Has the dividend's sign.
    Remainder,
}

/// How two truths are joined. The second is skipped where the first decides.
#[derive(Clone, Copy, Debug, PartialEq, Eq)]
pub enum Connective {
    /// `and`, which false decides.
    And,
    /// `or`, which true decides.
    Or,
}

/// Which value of a set is taken.
#[derive(Clone, Copy, Debug, PartialEq, Eq)]
pub enum Extremum {
    Min,
    Max,
}

/// For how many values a condition is asked to hold.
#[derive(Clone, Copy, Debug, PartialEq, Eq)]
pub enum Quantifier {
    Any,
    All,
}

/// A formula. Columns are given by number, and variables by position: in a formula column position
/// 0 is `this`; in a procedure or a view it is `caller`, 1 is `operator`, and the parameters follow.
/// A comprehension binds its variable at the position behind all variables so far. A condition that
/// was left out is the literal `true`.
#[derive(Drop)]
pub enum Core {
    /// `true` or `false`.
    Truth(bool),
    Number(i64),
    Text(Name),
    /// `$`, the one object of the root column.
    Root,
    /// The variable at a position.
    Variable(u32),
    /// `e.c` where `c` is an object column: the objects of `c` under those of `e`.
    ObjectStep(Boxed<Core>, u32),
    /// `e.c` where `c` is a state column: what the cells of the objects of `e` hold.
    StateStep(Boxed<Core>, u32),
    /// `e.c` where `c` is a formula column: what the cells of the objects of `e` come to.
    FormulaStep(Boxed<Core>, u32),
    /// `e.up`, the parents of the objects of `e`.
    Up(Boxed<Core>),
    /// `{}` and `{a, b}`: the union of the parts.
    Set(Items<Core>),
    /// `a union b`, `a intersect b`, `a except b`.
    Combine(SetOperator, Boxed<Core>, Boxed<Core>),
    /// `a = b`, `a != b`, `a in b`.
    Compare(SetTest, Boxed<Core>, Boxed<Core>),
    /// `a < b`, `a <= b`, `a > b`, `a >= b`.
    Order(OrderTest, Boxed<Core>, Boxed<Core>),
    /// `a + b`, `a - b`, `a * b`, `a / b`, `a % b`.
    Arithmetic(ArithmeticOperator, Boxed<Core>, Boxed<Core>),
    /// `-a`
    Negate(Boxed<Core>),
    /// `a & b`, the joined text.
    Join(Boxed<Core>, Boxed<Core>),
    /// `not a`
    Not(Boxed<Core>),
    /// `a and b`, `a or b`.
    Connect(Connective, Boxed<Core>, Boxed<Core>),
    /// `if c then a else b`: the condition and the two branches.
    If(Boxed<Core>, Boxed<Core>, Boxed<Core>),
    /// `count(s)`
    Count(Boxed<Core>),
    /// `only(s)`
    Only(Boxed<Core>),
    /// `min(s)`, `max(s)`.
    Extreme(Extremum, Boxed<Core>),
    /// `{f : x in s | p}`: the body, the source and the condition.
    Comprehension(Boxed<Core>, Boxed<Core>, Boxed<Core>),
    /// `sum(f : x in s | p)`: the body, the source and the condition.
    Sum(Boxed<Core>, Boxed<Core>, Boxed<Core>),
    /// `any(x in s | p)`, `all(x in s | p)`: the source and the condition.
    Quantify(Quantifier, Boxed<Core>, Boxed<Core>),
}
