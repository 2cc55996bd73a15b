// Requests.
use sheet_values::{Name, Values};

/// Where a request came from, which says what its text holds.
#[derive(Debug, Drop)]
pub enum Route {
    /// A line, which holds the whole request.
    Line,
    /// A call of the procedure of that name.
    Do(Name),
    /// A look at the view of that name.
    See(Name),
    /// What the view of that name reads.
    Reads(Name),
    /// The admission of a caller.
    Admit,
    /// The four counts.
    Stats,
}

/// A request. A key has 1 to 64 bytes of 0x21 to 0x7E, a name 1 to 63 bytes; a number is 1 to 9223372036854775807, and
/// an object 0 to 9223372036854775807.
#[derive(Debug, Drop)]
pub enum Request {
    /// A call of a procedure.
    Do {
        key: Name,
        name: Name,
        number: u64,
        with: Values,
    },
    /// A look at a view.
    See {
        key: Name,
        name: Name,
        with: Values,
    },
    /// The items that a view rests on.
    Reads {
        key: Name,
        name: Name,
        with: Values,
    },
    /// One more caller, with this key and name, for an object.
    Admit {
        key: Name,
        newkey: Name,
        name: Name,
        number: u64,
        object: u64,
    },
    /// Four counts.
    Stats {
        key: Name,
    },
}

/// Why no request was read, in the order of judging. The texts are names of fields.
#[derive(Debug, Drop)]
pub enum WireRefusal {
    /// The bytes are no JSON.
    NotJson,
    /// A field is missing or isn't of its kind; with no name, the whole is no request.
    BadShape(Name),
    /// A number is no whole one, or out of its range.
    NumberOutside(Name),
    /// A text has more than 1,000 bytes.
    TextTooLong(Name),
    /// It asks for the items that a view rests on, which isn't served yet.
    LaterForm,
    /// There was no memory.
    NoMemory,
}
