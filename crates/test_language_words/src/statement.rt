// Statements of the texts of their formulas.
use crate::formulas::{Scope, built, column_named, formula};
use crate::trouble::Trouble;
use sheet_columns::{Change, Core, CoreStatement, Statements, Target};
use sheet_syntax::{SyntaxRefusal, Tree, parse_formula};
use sheet_values::Name;
use std::alloc::Global;

/// Statements that grow one by one, with the last trouble that was met.
#[derive(Drop)]
pub struct Body {
    list: Statements,
    trouble: Option<Trouble>,
}

impl Body {
    /// The statements, where no trouble was met.
    pub fn statements(&self) -> Result<&[CoreStatement], Trouble> {
        match self.trouble {
            None => Ok(self.list.as_slice()),
            Some(trouble) => Err(trouble),
        }
    }

    fn into_statements(self) -> Result<Statements, Trouble> {
        match self.trouble {
            None => Ok(self.list),
            Some(trouble) => Err(trouble),
        }
    }
}

/// A statement.
pub type Stated = Result<CoreStatement, Trouble>;

/// No statements.
pub fn no_statements(alloc: Global) -> Body {
    Body {
        list: Statements::new(alloc),
        trouble: None,
    }
}

// Adds a statement at the end, where there is one.
fn put(body: &mut Statements, statement: Stated) -> Result<(), Trouble> {
    body.push(statement?)?;
    Ok(())
}

/// Statements, and one more.
pub fn then(mut body: Body, statement: Stated) -> Body {
    if let Err(trouble) = put(&mut body.list, statement) {
        body.trouble = Some(trouble);
    }
    body
}

// A target: `e.c`, or a column of the root.
fn target(alloc: Global, at: Scope, text: &str) -> Result<Target, Trouble> {
    if text.len() > 8000 {
        return Err(Trouble::Unreadable);
    }
    match parse_formula(alloc, text.as_bytes()) {
        Ok(tree) => target_of(alloc, at, &tree),
        Err(SyntaxRefusal::NoMemory) => Err(Trouble::NoMemory),
        Err(_) => Err(Trouble::Unreadable),
    }
}

fn target_of(alloc: Global, at: Scope, tree: &Tree) -> Result<Target, Trouble> {
    match tree {
        Tree::Child(_, object, name) => on(at, built(alloc, at, object.get()), name),
        Tree::Name(_, name) => on(at, Ok(Core::Root), name),
        _ => Err(Trouble::Unreadable),
    }
}

fn on(at: Scope, object: Result<Core, Trouble>, name: &Name) -> Result<Target, Trouble> {
    let object = object?;
    match column_named(at.columns, name.bytes()) {
        Some(column) => Ok(Target { object, column }),
        None => Err(Trouble::UnknownName),
    }
}

/// `let x = e`
pub fn bind(alloc: Global, at: Scope, number: u32, value: &str) -> Stated {
    Ok(CoreStatement::Let {
        number,
        value: formula(alloc, at, value)?,
    })
}

fn changed(
    number: u32,
    change: Change,
    target: Result<Target, Trouble>,
    value: Result<Core, Trouble>,
) -> Stated {
    let target = target?;
    Ok(CoreStatement::Change {
        number,
        change,
        target,
        value: value?,
    })
}

/// `set t = e`
pub fn set(alloc: Global, at: Scope, number: u32, cell: &str, value: &str) -> Stated {
    let target = target(alloc, at, cell);
    changed(number, Change::Set, target, formula(alloc, at, value))
}

/// `add e to t`
pub fn add(alloc: Global, at: Scope, number: u32, value: &str, cell: &str) -> Stated {
    let target = target(alloc, at, cell);
    changed(number, Change::Add, target, formula(alloc, at, value))
}

/// `remove e from t`
pub fn remove(alloc: Global, at: Scope, number: u32, value: &str, cell: &str) -> Stated {
    let target = target(alloc, at, cell);
    changed(number, Change::Remove, target, formula(alloc, at, value))
}

/// `new x = t`
pub fn new(alloc: Global, at: Scope, number: u32, column: &str) -> Stated {
    Ok(CoreStatement::New {
        number,
        target: target(alloc, at, column)?,
    })
}

/// `delete e`
pub fn delete(alloc: Global, at: Scope, number: u32, objects: &str) -> Stated {
    Ok(CoreStatement::Delete {
        number,
        objects: formula(alloc, at, objects)?,
    })
}

/// `check e else "m"`, with a message of at most 1,000 bytes.
pub fn check(alloc: Global, at: Scope, number: u32, condition: &str, message: &str) -> Stated {
    if message.len() > 1000 {
        return Err(Trouble::Unreadable);
    }
    let message = Name::of(alloc, message)?;
    Ok(CoreStatement::Check {
        number,
        condition: formula(alloc, at, condition)?,
        message,
    })
}

fn branched(
    number: u32,
    condition: Result<Core, Trouble>,
    body: Statements,
    otherwise: Statements,
) -> Stated {
    let condition = condition?;
    Ok(CoreStatement::If {
        number,
        condition,
        body,
        otherwise,
    })
}

/// `if e { } else { }`
pub fn branch(
    alloc: Global,
    at: Scope,
    number: u32,
    condition: &str,
    body: Body,
    otherwise: Body,
) -> Stated {
    let body = body.into_statements()?;
    let otherwise = otherwise.into_statements()?;
    branched(number, formula(alloc, at, condition), body, otherwise)
}

fn repeated(number: u32, source: Result<Core, Trouble>, body: Statements) -> Stated {
    let source = source?;
    Ok(CoreStatement::For {
        number,
        source,
        body,
    })
}

/// `for x in e { }`
pub fn repeat(alloc: Global, at: Scope, number: u32, source: &str, body: Body) -> Stated {
    let body = body.into_statements()?;
    repeated(number, formula(alloc, at, source), body)
}

/// `reply e`
pub fn reply(alloc: Global, at: Scope, number: u32, value: &str) -> Stated {
    Ok(CoreStatement::Reply {
        number,
        value: formula(alloc, at, value)?,
    })
}
