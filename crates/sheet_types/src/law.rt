// What holds of all books of definitions.
ghost use Rattle.sheet_types.specs.WellTyped.{BooksAreWellTyped};

use sheet_books::kinds_are_within;
use sheet_types_bodies::{resolved_procedures_are_well_typed, resolved_views_are_well_typed};
use sheet_types_formulas::typed_formulas_have_their_kinds;
use sheet_types_outline::outlines_are_within;

/// The book of an orderly definition is well typed.
pub fn books_are_well_typed()
    ensures { BooksAreWellTyped }
{
    outlines_are_within();
    typed_formulas_have_their_kinds();
    kinds_are_within();
    resolved_procedures_are_well_typed();
    resolved_views_are_well_typed();
}
