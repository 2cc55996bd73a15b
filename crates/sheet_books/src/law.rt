// What holds of all well-typed formulas, and of all well-typed books.
ghost use Rattle.sheet_books.specs.Schemas.{BooksStartWell};
ghost use Rattle.sheet_books.specs.Within.{KindsAreWithin};

/// Where types of objects among the columns and positions are those of object columns, so is the type of each formula.
pub fn kinds_are_within()
    ensures { KindsAreWithin }
{}

/// The schema of a well-typed book has one formula for each formula column, in order, and nothing else. The workbook at the start is
/// well formed and filled.
pub fn books_start_well()
    ensures { BooksStartWell }
{}
