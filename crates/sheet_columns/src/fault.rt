// The faults of formulas, and their places.
use sheet_values::NotOne;

/// Where a fault arose.
#[derive(Clone, Copy, Debug, PartialEq, Eq)]
pub enum Place {
    /// The formula cell of an object and a column.
    Cell(u64, u32),
    /// A procedure's statement, from 1, in the order of the text; `allow` is 0.
    Statement(u32),
    /// A view's slot, from 1, in the order of the text; `allow` is 0.
    Slot(u32),
}

/// Why a formula has no set of values as its result.
#[derive(Clone, Copy, Debug, PartialEq, Eq)]
pub enum Fault {
    /// The result rests on itself.
    Cycle,
    /// A part that must be one value has none or several.
    NotOne(NotOne, Place),
    /// The exact result is outside the 64-bit signed integers.
    Overflow(Place),
    /// A number is divided by zero.
    ZeroDivisor(Place),
    /// A text would have over 1,000 bytes.
    TextTooLong(Place),
}
