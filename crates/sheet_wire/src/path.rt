// Paths of columns.
ghost use Rattle.std.specs.Prelude.{◌≡◌, IfOk};
ghost use Rattle.sheet_columns.specs.Tree.{path};

use sheet_columns::Columns;
use sheet_values::{Name, NoMemory};
use std::alloc::Global;

/// The path of a column, and the empty text where there is no such column.
pub fn path_of(alloc: Global, columns: &Columns, column: u32) -> Result<Name, NoMemory>
    ensures { IfOk result (λ text. text ≡ path columns.now column) }
{
    if column < columns.count() {
        columns.path_text(column)
    } else {
        Name::of(alloc, "")
    }
}
