//! What formulas, statements and views mean.
#![tactic(auto)]

ghost use Rattle.sheet_meaning.specs.Arguments.{GoodArgumentsFit};
ghost use Rattle.sheet_meaning.specs.Kept.{KeptCellsAreSets, KeptCellsStayClosed};
ghost use Rattle.sheet_meaning.specs.Cost.{KeptCellsCostNothing};
ghost use Rattle.sheet_meaning.specs.Courses.{StatementsAreCourses, ProceduresAreCourses, UntouchedCellsStayFilled};
ghost use Rattle.sheet_meaning.specs.Page.{SupportSuffices};
ghost use Rattle.sheet_meaning.specs.Reads.{UsesSuffice};
ghost use Rattle.sheet_meaning.specs.Rounds.{RoundsEnd, CyclesAreFinal};
ghost use Rattle.sheet_meaning.specs.Start.{StartsAreWellFormed, StartsAreFilled};
ghost use Rattle.sheet_meaning.specs.Support.{ReachedIsAll};

mod refusal;
mod run;
mod workbook;

pub use refusal::{Refusal, Which};
pub use run::{Run, Use};
pub use workbook::{Caller, ColumnFormula, LiveObject, Schema, State, StoredCell, Workbook};

/// After as many rounds as there are formula cells, no round changes the table of outcomes.
pub fn rounds_end()
    ensures { RoundsEnd }
{}

/// A formula cell is a cycle exactly where no round gives it an outcome. Any other meaning is its
/// outcome in all tables from some round on.
pub fn cycles_are_final()
    ensures { CyclesAreFinal }
{}

/// What an expression comes to depends on the items and formula cells that it uses, and on nothing
/// else.
pub fn uses_suffice()
    ensures { UsesSuffice }
{}

/// The list of the formula cells that are reached from some holds exactly these cells, the formula
/// cells that they read directly, and so on.
pub fn reached_is_all()
    ensures { ReachedIsAll }
{}

/// Two well-formed workbooks of one schema that agree at the support of a view in the first give the
/// same page to the same caller and arguments.
pub fn support_suffices()
    ensures { SupportSuffices }
{}

/// The workbook at the start is well formed.
pub fn starts_are_well_formed()
    ensures { StartsAreWellFormed }
{}

/// It is filled where the columns under the root that must hold one value have their first values.
pub fn starts_are_filled()
    ensures { StartsAreFilled }
{}

/// No argument is bad exactly where there is one for each parameter and each is a live value of its type.
pub fn good_arguments_fit()
    ensures { GoodArgumentsFit }
{}

/// Which cells are kept after an evaluation, and after a change, doesn't rest on the order of a list.
pub fn kept_cells_are_sets()
    ensures { KeptCellsAreSets }
{}

/// Where what kept cells read directly is kept, it is so after an evaluation, and after a change.
pub fn kept_cells_stay_closed()
    ensures { KeptCellsStayClosed }
{}

/// A kept cell costs nothing.
pub fn kept_cells_cost_nothing()
    ensures { KeptCellsCostNothing }
{}

/// The changes of statements lead to the last point, which is the end of those that aren't refused; an item that no
/// change touches stays as it was.
pub fn statements_are_courses()
    ensures { StatementsAreCourses }
{}

/// The same of the run of a procedure.
pub fn procedures_are_courses()
    ensures { ProceduresAreCourses }
{}

/// A cell that must hold exactly one value does so still, where it did before and no change touched it or its object.
pub fn untouched_cells_stay_filled()
    ensures { UntouchedCellsStayFilled }
{}
