//! The state cells that the changes of a procedure touched, and the test of those that must hold exactly one value.
#![tactic(auto)]

ghost use Rattle.sheet_procs_touched.specs.Touched.{FilledIsCovered, SettingIsCovered, MakingIsCovered, DeletingIsCovered};

mod touched;

pub use touched::Touched;

/// In a filled workbook every cell that must hold exactly one value does, so that none needs to be touched.
pub fn filled_is_covered()
    ensures { FilledIsCovered }
{}

/// Where all cells that must hold one value and don't are touched, they are so after a state cell is set that is touched too.
pub fn setting_is_covered()
    ensures { SettingIsCovered }
{}

/// The same after an object is made whose cells are touched.
pub fn making_is_covered()
    ensures { MakingIsCovered }
{}

/// The same after objects are gone, where the state cells that changed are touched.
pub fn deleting_is_covered()
    ensures { DeletingIsCovered }
{}
