// The forms of formulas, each made of its parts.
use crate::formulas::Built;
use crate::trouble::Trouble;
use sheet_columns::{
    ArithmeticOperator, Column, Columns, Connective, Core, Extremum, OrderTest, Quantifier,
    SetOperator, SetTest,
};
use sheet_syntax::{Function, Gathering, Operator};
use sqlite_items::{Boxed, Items};
use std::alloc::Global;

fn boxed(alloc: Global, part: Built) -> Result<Boxed<Core>, Trouble> {
    Ok(Boxed::new(alloc, part?)?)
}

fn two(alloc: Global, left: Built, right: Built) -> Result<(Boxed<Core>, Boxed<Core>), Trouble> {
    let left = boxed(alloc, left)?;
    let right = boxed(alloc, right)?;
    Ok((left, right))
}

/// `e.up`
pub(crate) fn up(alloc: Global, of: Built) -> Built {
    Ok(Core::Up(boxed(alloc, of)?))
}

/// `e.c`, of any column.
pub(crate) fn step(alloc: Global, columns: &Columns, of: Built, column: u32) -> Built {
    let of = boxed(alloc, of)?;
    if column >= columns.count() {
        return Err(Trouble::UnknownName);
    }
    match columns.get(column) {
        Column::Object => Ok(Core::ObjectStep(of, column)),
        Column::State { .. } => Ok(Core::StateStep(of, column)),
        Column::Formula { .. } => Ok(Core::FormulaStep(of, column)),
    }
}

/// `-a`
pub(crate) fn negated(alloc: Global, part: Built) -> Built {
    Ok(Core::Negate(boxed(alloc, part)?))
}

/// `not a`
pub(crate) fn denied(alloc: Global, part: Built) -> Built {
    Ok(Core::Not(boxed(alloc, part)?))
}

fn combined(alloc: Global, operator: SetOperator, left: Built, right: Built) -> Built {
    let (left, right) = two(alloc, left, right)?;
    Ok(Core::Combine(operator, left, right))
}

fn compared(alloc: Global, test: SetTest, left: Built, right: Built) -> Built {
    let (left, right) = two(alloc, left, right)?;
    Ok(Core::Compare(test, left, right))
}

fn ordered(alloc: Global, test: OrderTest, left: Built, right: Built) -> Built {
    let (left, right) = two(alloc, left, right)?;
    Ok(Core::Order(test, left, right))
}

fn calculated(alloc: Global, operator: ArithmeticOperator, left: Built, right: Built) -> Built {
    let (left, right) = two(alloc, left, right)?;
    Ok(Core::Arithmetic(operator, left, right))
}

fn joined(alloc: Global, left: Built, right: Built) -> Built {
    let (left, right) = two(alloc, left, right)?;
    Ok(Core::Join(left, right))
}

fn connected(alloc: Global, connective: Connective, left: Built, right: Built) -> Built {
    let (left, right) = two(alloc, left, right)?;
    Ok(Core::Connect(connective, left, right))
}

/// An operator with its two operands.
pub(crate) fn operation(alloc: Global, operator: Operator, left: Built, right: Built) -> Built {
    match operator {
        Operator::Or => connected(alloc, Connective::Or, left, right),
        Operator::And => connected(alloc, Connective::And, left, right),
        Operator::Equals => compared(alloc, SetTest::Equal, left, right),
        Operator::NotEquals => compared(alloc, SetTest::Unequal, left, right),
        Operator::In => compared(alloc, SetTest::Within, left, right),
        Operator::Less => ordered(alloc, OrderTest::Less, left, right),
        Operator::AtMost => ordered(alloc, OrderTest::AtMost, left, right),
        Operator::Greater => ordered(alloc, OrderTest::Greater, left, right),
        Operator::AtLeast => ordered(alloc, OrderTest::AtLeast, left, right),
        Operator::Union => combined(alloc, SetOperator::Union, left, right),
        Operator::Intersect => combined(alloc, SetOperator::Intersect, left, right),
        Operator::Except => combined(alloc, SetOperator::Except, left, right),
        Operator::Plus => calculated(alloc, ArithmeticOperator::Add, left, right),
        Operator::Minus => calculated(alloc, ArithmeticOperator::Subtract, left, right),
        Operator::Join => joined(alloc, left, right),
        Operator::Times => calculated(alloc, ArithmeticOperator::Multiply, left, right),
        Operator::Divide => calculated(alloc, ArithmeticOperator::Divide, left, right),
        Operator::Remainder => calculated(alloc, ArithmeticOperator::Remainder, left, right),
    }
}

/// `if c then a else b`
pub(crate) fn chosen(alloc: Global, condition: Built, left: Built, right: Built) -> Built {
    let condition = boxed(alloc, condition);
    let (left, right) = two(alloc, left, right)?;
    Ok(Core::If(condition?, left, right))
}

/// `count(s)`, `only(s)`, `min(s)`, `max(s)`.
pub(crate) fn called(alloc: Global, function: Function, set: Built) -> Built {
    let set = boxed(alloc, set)?;
    Ok(match function {
        Function::Count => Core::Count(set),
        Function::Only => Core::Only(set),
        Function::Min => Core::Extreme(Extremum::Min, set),
        Function::Max => Core::Extreme(Extremum::Max, set),
    })
}

/// `{f : x in s | p}`, `sum(f : x in s | p)`.
pub(crate) fn gathered(
    alloc: Global,
    gathering: Gathering,
    source: Built,
    body: Built,
    condition: Built,
) -> Built {
    let source = boxed(alloc, source);
    let (body, condition) = two(alloc, body, condition)?;
    Ok(match gathering {
        Gathering::Union => Core::Comprehension(body, source?, condition),
        Gathering::Sum => Core::Sum(body, source?, condition),
    })
}

/// `any(x in s | p)`, `all(x in s | p)`.
pub(crate) fn quantified(
    alloc: Global,
    quantifier: Quantifier,
    source: Built,
    condition: Built,
) -> Built {
    let (source, condition) = two(alloc, source, condition)?;
    Ok(Core::Quantify(quantifier, source, condition))
}

/// The parts of a set, and one more.
pub(crate) fn with_part(
    parts: Result<Items<Core>, Trouble>,
    part: Built,
) -> Result<Items<Core>, Trouble> {
    let mut parts = parts?;
    parts.push(part?)?;
    Ok(parts)
}
