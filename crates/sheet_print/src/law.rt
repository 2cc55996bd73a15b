// What widths count.
ghost use Rattle.sheet_print.specs.Widths.{WidthsCountCharacters};

/// The width by which fields are filled is the number of characters of the text.
pub fn widths_count_characters()
    ensures { WidthsCountCharacters }
{}
