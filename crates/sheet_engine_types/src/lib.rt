//! Laws of types: what well-typed formulas give in well-formed workbooks.
#![tactic(auto)]

ghost use Rattle.sheet_engine_types.specs.Types.{MeaningsHaveKinds, RoundsHaveKinds, ValuesHaveKinds};

/// In a well-formed workbook, whose formulas fit their columns, a formula cell has no value but a rising set of its column's type, of
/// objects live ones, after any number of rounds.
pub fn rounds_have_kinds()
    ensures { RoundsHaveKinds }
{}

/// The same of the meaning of a formula cell.
pub fn meanings_have_kinds()
    ensures { MeaningsHaveKinds }
{}

/// What a well-typed formula gives there is a rising set of its type, of objects live ones. The variables are well typed where
/// their sets are; an object that isn't live is of every type of objects.
pub fn values_have_kinds()
    ensures { ValuesHaveKinds }
{}
