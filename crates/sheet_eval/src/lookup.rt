// What an evaluation asks of a workbook.
ghost use Rattle.std.specs.Prelude.{◌≡◌};
ghost use Rattle.std.specs.Option.{option_copied};
ghost use Rattle.sheet_eval.specs.Told.{Told};

use sheet_columns::Fault;
use sheet_values::Set;

/// Who tells the content of a workbook, and the results of the formula cells that are worked out.
pub trait Lookup {
    /// All that it tells.
    ghost told: { Self → Told };

    /// What a state cell holds.
    fn cell(&self, object: u64, column: u32) -> &Set
        ensures { result.now ≡ (told self.now).cell object column };

    /// The objects of a column under an object.
    fn children(&self, object: u64, column: u32) -> &Set
        ensures { result.now ≡ (told self.now).children object column };

    /// The object above an object.
    fn parent(&self, object: u64) -> Option<u64>
        ensures { result ≡ (told self.now).parent object };

    /// Whether an object is live.
    fn is_live(&self, object: u64) -> bool
        ensures { result ≡ (told self.now).live object };

    /// The result of a formula cell, none where it isn't worked out. The fault `cycle` stands for no result.
    fn worked(&self, object: u64, column: u32) -> Option<&Result<Set, Fault>>
        ensures { option_copied result ≡ (told self.now).worked object column };
}
