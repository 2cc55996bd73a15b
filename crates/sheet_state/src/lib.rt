//! The state of a workbook: its objects and stored sets, the changes of them, and the way back from changes.
#![tactic(auto)]

ghost use Rattle.sheet_state.specs.Schemas.{FormulasDontMatter, WorldsTellItems};

mod birth;
mod death;
mod lookup;
mod places;
mod refusal;
mod state;

pub use refusal::StateRefusal;
pub use sheet_meaning::Which;
pub use state::{Mark, State};

/// What a state is of columns, it is of any schema with these columns: as well formed, within the same limits, and with the
/// same new objects, whatever the formulas say.
pub fn formulas_do_not_matter()
    ensures { FormulasDontMatter }
{}

/// Expressions of a workbook are worked out from the content of the items that a state's lookups tell.
pub fn worlds_tell_items()
    ensures { WorldsTellItems }
{}
