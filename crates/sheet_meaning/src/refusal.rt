//! Why a procedure or a view is refused.

use sheet_columns::Fault;
use sheet_values::Name;

/// What is counted against a limit.
#[derive(Clone, Copy, Debug, PartialEq, Eq)]
pub enum Which {
    /// The live objects, with the root.
    Objects,
    /// The state and formula cells.
    Cells,
    /// The values in state cells.
    Values,
    /// The object numbers that were drawn.
    Numbers,
    /// The weight of a reply: 16 for each value, and a text's bytes.
    Reply,
    /// The accepted requests.
    Requests,
}

/// Why the run of a procedure, or a view, is refused.
#[derive(Debug, Drop)]
pub enum Refusal {
    /// The `allow` formula is false.
    Denied,
    /// The check with this number is false; its message.
    CheckFailed(u32, Name),
    /// A formula has this fault.
    FormulaFault(Fault),
    /// This count would pass its limit.
    Full(Which, u64),
    /// After the last statement a `one` cell, by object and column, has this many values.
    NotOneCell(u64, u32, usize),
}
