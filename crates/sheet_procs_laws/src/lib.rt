//! Laws of statements: what well-typed ones leave of a well-formed workbook.
#![tactic(auto)]

ghost use Rattle.sheet_procs_laws.specs.Keeping.{BooksAreTyped, ProceduresLeaveWellFormed, StatementsStayWellFormed};

/// The formulas of a well-typed book have the types of their columns, or none that is known.
pub fn books_are_typed()
    ensures { BooksAreTyped }
{}

/// Well-typed statements keep a workbook well formed: each of their changes is one from a well-formed workbook to another, whether
/// or not the run is refused, and where it ends the variables have the types that the rules give them.
pub fn statements_stay_well_formed()
    ensures { StatementsStayWellFormed }
{}

/// So do procedures of a well-typed book; where one isn't refused, each cell that must hold exactly one value does in the end.
pub fn procedures_leave_well_formed()
    ensures { ProceduresLeaveWellFormed }
{}
