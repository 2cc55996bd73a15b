// Statements as they are written.

use sheet_syntax_trees::Tree;
use sheet_values::Name;
use sqlite_items::Items;

/// What a statement acts on: `e.c`, or `c` alone.
#[derive(Drop)]
pub struct Target {
    /// The line of its first token, from 1.
    pub line: u32,
    /// What stands before the last dot.
    pub object: Option<Tree>,
    /// The column.
    pub column: Name,
}

/// A statement, with the line of the word that begins it, from 1.
#[derive(Drop)]
pub enum Statement {
    /// `let x = e`
    Let {
        line: u32,
        name: Name,
        value: Tree,
    },
    /// `set t = e`
    Set {
        line: u32,
        target: Target,
        value: Tree,
    },
    /// `add e to t`
    Add {
        line: u32,
        value: Tree,
        target: Target,
    },
    /// `remove e from t`
    Remove {
        line: u32,
        value: Tree,
        target: Target,
    },
    /// `new x = t`
    New {
        line: u32,
        name: Name,
        target: Target,
    },
    /// `delete e`
    Delete {
        line: u32,
        objects: Tree,
    },
    /// `check e else "m"`
    Check {
        line: u32,
        condition: Tree,
        message: Name,
    },
    /// `reply e`
    Reply {
        line: u32,
        value: Tree,
    },
    /// `if e { .. }`
    If {
        line: u32,
        condition: Tree,
        body: Items<Statement>,
    },
    /// `if e { .. } else { .. }`
    IfElse {
        line: u32,
        condition: Tree,
        body: Items<Statement>,
        otherwise: Items<Statement>,
    },
    /// `for x in e { .. }`
    For {
        line: u32,
        name: Name,
        source: Tree,
        body: Items<Statement>,
    },
}
