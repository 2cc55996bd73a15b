//! The statements of procedures, with column numbers for names and positions for variables.

ghost use Rattle.std.specs.Prelude.{◌≡◌, ◌<◌, ◌++◌, ◌∷◌, [], length, slice_get, Some, OnOk, OnErr};
ghost use Rattle.sheet_columns.specs.Statements.{statements_in};

use crate::Core;
use sheet_values::{Name, NoMemory};
use sqlite_items::Items;
use std::alloc::Global;

/// How a state cell changes.
#[derive(Clone, Copy, Debug, PartialEq, Eq)]
pub enum Change {
    /// `set t = e`: it holds the set.
    Set,
    /// `add e to t`: it holds its union with the set.
    Add,
    /// `remove e from t`: it loses the values of the set.
    Remove,
}

/// What a statement acts on: a column under the one object that a formula gives.
#[derive(Drop)]
pub struct Target {
    pub object: Core,
    pub column: u32,
}

/// A statement, with its number: statements are numbered from 1 in the order of the text, inner ones
/// after the one that holds them. The number is the place of the statement's faults. What `let`, `new`
/// and `for` bind stands at the position behind all variables so far, to the end of the block.
#[cycle(statements)]
#[derive(Drop)]
pub enum CoreStatement {
    /// `let x = e`
    Let {
        number: u32,
        value: Core,
    },
    /// `set t = e`, `add e to t` and `remove e from t`, of a state column.
    Change {
        number: u32,
        change: Change,
        target: Target,
        value: Core,
    },
    /// `new x = t`, of an object column.
    New {
        number: u32,
        target: Target,
    },
    /// `delete e`
    Delete {
        number: u32,
        objects: Core,
    },
    /// `check e else "m"`
    Check {
        number: u32,
        condition: Core,
        message: Name,
    },
    /// `if e { } else { }`. An `else` that was left out has no statements.
    If {
        number: u32,
        condition: Core,
        body: Statements,
        otherwise: Statements,
    },
    /// `for x in e { }`
    For {
        number: u32,
        source: Core,
        body: Statements,
    },
    /// `reply e`
    Reply {
        number: u32,
        value: Core,
    },
}

/// Statements in order.
#[cycle(statements)]
#[derive(Drop)]
pub struct Statements {
    pub list: Items<CoreStatement>,
}

impl Statements {
    /// No statements. It takes no memory.
    pub fn new(alloc: Global) -> Statements
        ensures { statements_in result ≡ [] }
    {
        Statements {
            list: Items::new(alloc),
        }
    }

    /// How many statements there are, those inside others not counted.
    pub fn len(&self) -> usize
        ensures { result ≡ length (statements_in self.now) }
    {
        self.list.len()
    }

    /// The statement at `k`, from 0.
    pub fn at(&self, k: usize) -> &CoreStatement
        requires { k < length (statements_in self.now) }
        ensures { slice_get (statements_in self.now) k ≡ Some result.now }
    {
        &self.list.as_slice()[k]
    }

    /// The statements in order.
    pub fn as_slice(&self) -> &[CoreStatement]
        ensures { result.now ≡ statements_in self.now }
    {
        self.list.as_slice()
    }

    /// Adds a statement at the end. Nothing changes where memory is refused.
    pub fn push(&mut self, statement: CoreStatement) -> Result<(), NoMemory>
        ensures ok { OnOk result (statements_in self.new ≡ statements_in self.old ++ statement ∷ []) }
        ensures err { OnErr result (statements_in self.new ≡ statements_in self.old) }
    {
        self.list.push(statement)?;
        Ok(())
    }
}
