// Formulas as they are written.

use crate::operators::{Function, Gathering, Operator, Quantifier};
use sheet_values::Name;
use sqlite_items::{Boxed, Items};

/// A formula as it is written, with names as they stand there. The number that comes first in each form is the line of
/// its first token, from 1. Parentheses leave no trace.
#[derive(Drop)]
pub enum Tree {
    Number(u32, i64),
    Text(u32, Name),
    Truth(u32, bool),
    /// `$`
    Root(u32),
    This(u32),
    Caller(u32),
    Operator(u32),
    Name(u32, Name),
    /// `e.c`
    Child(u32, Boxed<Tree>, Name),
    /// `e.up`
    Up(u32, Boxed<Tree>),
    /// `-e`
    Negate(u32, Boxed<Tree>),
    /// `not e`
    Not(u32, Boxed<Tree>),
    Binary(u32, Operator, Boxed<Tree>, Boxed<Tree>),
    /// `if c then a else b`
    If(u32, Boxed<Tree>, Boxed<Tree>, Boxed<Tree>),
    /// `{}`, `{a, b}`
    Set(u32, Items<Tree>),
    /// `count(s)`
    Call(u32, Function, Boxed<Tree>),
    /// `{f : x in s}`: the body, the variable and the source.
    Gather(u32, Gathering, Boxed<Tree>, Name, Boxed<Tree>),
    /// `{f : x in s | p}`: the body, the variable, the source and the condition.
    GatherWhere(u32, Gathering, Boxed<Tree>, Name, Boxed<Tree>, Boxed<Tree>),
    /// `any(x in s | p)`: the variable, the source and the condition.
    Test(u32, Quantifier, Name, Boxed<Tree>, Boxed<Tree>),
}

/// A formula and its depth: 1 for one without parts, and else 1 more than that of its deepest part.
#[derive(Drop)]
pub struct Formed {
    pub tree: Tree,
    pub depth: u32,
}
