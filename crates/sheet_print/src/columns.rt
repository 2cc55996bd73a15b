// The columns of a table.
ghost use Rattle.std.specs.Prelude.{◌≡◌, ◌<◌, ◌++◌, [], ◌∷◌, cond, length, IfOk, OnOk};
ghost use Rattle.sheet_columns.specs.Tree.{IsTree};
ghost use Rattle.sheet_print.specs.Books.{cells_under as cells_under_of, has_cells as has_cells_of, header_fields as header_fields_of, is_cell_under, name_at};
ghost use Rattle.sheet_print.specs.Shown.{AreCounted};

use crate::field::{Field, Fields};
use sheet_columns::{Column, Columns};
use sheet_values::NoMemory;
use std::alloc::Global;

// Whether a column has cells.
fn has_cells(column: &Column) -> bool
    ensures { result ≡ has_cells_of column.now }
{
    match column {
        Column::Object => false,
        Column::State { .. } | Column::Formula { .. } => true,
    }
}

// Whether a column has cells and stands directly under this one.
fn is_under(columns: &Columns, column: u32, above: u32) -> bool
    requires tree { IsTree columns.now }
    requires counted { column < length columns.now }
    ensures { result ≡ is_cell_under columns.now above column }
{
    if column == 0 {
        return false;
    }
    columns.above(column) == above && has_cells(columns.get(column))
}

// Adds a column that has cells and stands directly under this one.
fn add_cell(
    cells: &mut Vec<u32>,
    columns: &Columns,
    column: u32,
    above: u32,
) -> Result<(), NoMemory>
    requires tree { IsTree columns.now }
    requires counted { column < length columns.now }
    ensures { OnOk result (cells.new.items ≡ cells.old.items ++ cond (is_cell_under columns.now above column) (column ∷ []) []) }
{
    if is_under(columns, column, above) {
        cells.push(column)?;
    }
    Ok(())
}

/// The state and formula columns directly under a column, by number.
pub(crate) fn cells_under(
    alloc: Global,
    columns: &Columns,
    above: u32,
) -> Result<Vec<u32>, NoMemory>
    ensures cells { IfOk result (λ cells. cells.items ≡ cells_under_of columns.now above) }
    ensures counted { IfOk result (λ cells. AreCounted columns.now cells.items) }
{
    let mut cells = Vec::new(alloc);
    for column in 0..columns.count() {
        add_cell(&mut cells, columns, column, above)?;
    }
    Ok(cells)
}

// The name of a column.
fn name_field(alloc: Global, columns: &Columns, column: u32) -> Result<Field, NoMemory>
    requires { column < length columns.now }
    ensures { IfOk result (λ field. field ≡ name_at columns.now column) }
{
    Field::of(alloc, columns.name(column).bytes())
}

/// The fields of the header over these cells.
pub(crate) fn header_fields(
    alloc: Global,
    columns: &Columns,
    cells: &[u32],
) -> Result<Fields, NoMemory>
    requires counted { AreCounted columns.now cells.now }
    ensures fields { IfOk result (λ fields. fields ≡ header_fields_of columns.now cells.now) }
{
    let mut fields = Fields::new(alloc);
    fields.push(Field::of(alloc, b"#")?)?;
    fields.push(Field::of(alloc, b"up")?)?;
    for cell in cells {
        fields.push(name_field(alloc, columns, *cell)?)?;
    }
    Ok(fields)
}
