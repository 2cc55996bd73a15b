// The tables of object columns.
ghost use Rattle.std.specs.Prelude.{◌≡◌, ◌<◌, ◌++◌, Some, decimal, length, map, IfOk, OnOk};
ghost use Rattle.sheet_columns.specs.Tree.{column_of, IsTree};
ghost use Rattle.sheet_columns.specs.declared.tree.Column.TheVariants.{Object as object_column};
ghost use Rattle.sheet_engine.specs.Seen.{workbook_in, IsFormulaCell};
ghost use Rattle.sheet_meaning.specs.Rounds.{meaning};
ghost use Rattle.sheet_print.specs.Books.{cells_under as cells_told, object_fields as object_fields_of, objects_of as objects_told, parent_text, table_below, table_of, text_at, title};
ghost use Rattle.sheet_print.specs.Cells.{cell_text};
ghost use Rattle.sheet_print.specs.Shown.{AreCounted, HasCells, HaveCells, IsCell};

use crate::cells::{result_field, set_field};
use crate::columns::{cells_under, header_fields};
use crate::field::{Field, Fields};
use crate::lines::add_lines;
use crate::objects::objects_of;
use itoa::Buffer;
use sheet_columns::{Column, Columns, Sequence};
use sheet_engine::Engine;
use sheet_values::{NoMemory, Steps};
use std::alloc::Global;
use std::sync::ledger::Ledger;

// The text of a number.
fn number_field(alloc: Global, number: u64) -> Result<Field, NoMemory>
    ensures { IfOk result (λ field. field ≡ decimal number) }
{
    let mut buffer = Buffer::new();
    Field::of(alloc, buffer.format(number).as_bytes())
}

// The number of a parent.
fn parent_field(alloc: Global, parent: Option<u64>) -> Result<Field, NoMemory>
    ensures { IfOk result (λ field. field ≡ parent_text parent) }
{
    match parent {
        Some(parent) => number_field(alloc, parent),
        None => Field::of(alloc, b"-"),
    }
}

// The text of a formula cell.
fn formula_field<G: Ledger>(
    alloc: Global,
    engine: &mut Engine,
    object: u64,
    column: u32,
    steps: &mut Steps<G>,
) -> Result<Field, NoMemory>
    requires { IsFormulaCell engine.old object column }
    ensures field { IfOk result (λ field. field ≡ cell_text (meaning (workbook_in engine.old) object column)) }
    ensures book { engine.new.book ≡ engine.old.book }
    ensures state { engine.new.state ≡ engine.old.state }
{
    let outcome = engine.value(object, column, steps)?;
    result_field(alloc, &outcome)
}

// The text of an object's cell.
fn cell_field<G: Ledger>(
    alloc: Global,
    engine: &mut Engine,
    columns: &Columns,
    object: u64,
    column: u32,
    steps: &mut Steps<G>,
) -> Result<Field, NoMemory>
    requires columns { columns.now ≡ engine.old.book.columns }
    requires cell { IsCell columns.now engine.old.state.present.state.objects object column }
    ensures field { IfOk result (λ field. field ≡ text_at (workbook_in engine.old) object column) }
    ensures book { engine.new.book ≡ engine.old.book }
    ensures state { engine.new.state ≡ engine.old.state }
{
    match columns.get(column) {
        Column::Object => Field::of(alloc, b""),
        Column::State { .. } => set_field(alloc, engine.state().cell(object, column)),
        Column::Formula { .. } => formula_field(alloc, engine, object, column, steps),
    }
}

// Adds the texts of an object's cells.
fn add_cells<G: Ledger>(
    alloc: Global,
    fields: &mut Fields,
    engine: &mut Engine,
    columns: &Columns,
    cells: &[u32],
    object: u64,
    steps: &mut Steps<G>,
) -> Result<(), NoMemory>
    requires columns { columns.now ≡ engine.old.book.columns }
    requires cells { HasCells columns.now engine.old.state.present.state.objects cells.now object }
    ensures fields { OnOk result (fields.new ≡ fields.old ++ map (text_at (workbook_in engine.old) object) cells.now) }
    ensures book { engine.new.book ≡ engine.old.book }
    ensures state { engine.new.state ≡ engine.old.state }
{
    for column in cells {
        fields.push(cell_field(alloc, engine, columns, object, *column, steps)?)?;
    }
    Ok(())
}

// The fields of an object.
fn object_fields<G: Ledger>(
    alloc: Global,
    engine: &mut Engine,
    columns: &Columns,
    cells: &[u32],
    object: u64,
    steps: &mut Steps<G>,
) -> Result<Fields, NoMemory>
    requires columns { columns.now ≡ engine.old.book.columns }
    requires cells { HasCells columns.now engine.old.state.present.state.objects cells.now object }
    ensures fields { IfOk result (λ fields. fields ≡ object_fields_of (workbook_in engine.old) cells.now object) }
    ensures book { engine.new.book ≡ engine.old.book }
    ensures state { engine.new.state ≡ engine.old.state }
{
    let mut fields = Fields::new(alloc);
    fields.push(number_field(alloc, object)?)?;
    fields.push(parent_field(alloc, engine.state().parent(object))?)?;
    add_cells(alloc, &mut fields, engine, columns, cells, object, steps)?;
    Ok(fields)
}

// Adds the fields of some objects.
fn add_objects<G: Ledger>(
    alloc: Global,
    lines: &mut Sequence<Fields>,
    engine: &mut Engine,
    columns: &Columns,
    cells: &[u32],
    objects: &[u64],
    steps: &mut Steps<G>,
) -> Result<(), NoMemory>
    requires columns { columns.now ≡ engine.old.book.columns }
    requires cells { HaveCells columns.now engine.old.state.present.state.objects cells.now objects.now }
    ensures lines { OnOk result (lines.new ≡ lines.old ++ map (object_fields_of (workbook_in engine.old) cells.now) objects.now) }
    ensures book { engine.new.book ≡ engine.old.book }
    ensures state { engine.new.state ≡ engine.old.state }
{
    for object in objects {
        lines.push(object_fields(alloc, engine, columns, cells, *object, steps)?)?;
    }
    Ok(())
}

// Adds the header, and the lines of some objects. There are some.
fn add_table<G: Ledger>(
    alloc: Global,
    out: &mut Vec<u8>,
    engine: &mut Engine,
    columns: &Columns,
    cells: &[u32],
    objects: &[u64],
    steps: &mut Steps<G>,
) -> Result<(), NoMemory>
    requires columns { columns.now ≡ engine.old.book.columns }
    requires counted { AreCounted columns.now cells.now }
    requires cells { HaveCells columns.now engine.old.state.present.state.objects cells.now objects.now }
    ensures text { OnOk result (out.new.items ≡ out.old.items ++ table_below (workbook_in engine.old) cells.now objects.now) }
    ensures book { engine.new.book ≡ engine.old.book }
    ensures state { engine.new.state ≡ engine.old.state }
{
    if objects.is_empty() {
        return Ok(());
    }
    let mut lines = Sequence::new(alloc);
    lines.push(header_fields(alloc, columns, cells)?)?;
    add_objects(alloc, &mut lines, engine, columns, cells, objects, steps)?;
    add_lines(alloc, out, lines.as_slice())
}

// The line of a column, with its count of objects.
fn add_title(
    out: &mut Vec<u8>,
    columns: &Columns,
    column: u32,
    count: usize,
) -> Result<(), NoMemory>
    requires { column < length columns.now }
    ensures { OnOk result (out.new.items ≡ out.old.items ++ title columns.now column count) }
{
    let path = columns.path_text(column)?;
    let mut buffer = Buffer::new();
    out.extend_from_slice(b"== ")?;
    out.extend_from_slice(path.bytes())?;
    out.extend_from_slice(b" (")?;
    out.extend_from_slice(buffer.format(count).as_bytes())?;
    out.extend_from_slice(b")\n")?;
    Ok(())
}

// The numbers of a column's objects, which have the cells of the column.
fn column_objects(
    alloc: Global,
    engine: &Engine,
    columns: &Columns,
    column: u32,
) -> Result<Vec<u64>, NoMemory>
    requires columns { columns.now ≡ engine.now.book.columns }
    requires tree { IsTree columns.now }
    requires object_column { column_of columns.now column ≡ Some object_column }
    ensures objects { IfOk result (λ objects. objects.items ≡ objects_told engine.now.state.present.state.objects column) }
    ensures cells { HaveCells columns.now engine.now.state.present.state.objects (cells_told columns.now column) (objects_told engine.now.state.present.state.objects column) }
{
    objects_of(alloc, engine.state(), columns, column)
}

// The table of an object column.
fn object_table<G: Ledger>(
    alloc: Global,
    engine: &mut Engine,
    columns: &Columns,
    column: u32,
    steps: &mut Steps<G>,
) -> Result<Vec<u8>, NoMemory>
    requires columns { columns.now ≡ engine.old.book.columns }
    requires tree { IsTree columns.now }
    requires object_column { column_of columns.now column ≡ Some object_column }
    ensures text { IfOk result (λ text. text.items ≡ table_of (workbook_in engine.old) column) }
    ensures book { engine.new.book ≡ engine.old.book }
    ensures state { engine.new.state ≡ engine.old.state }
{
    let cells = cells_under(alloc, columns, column)?;
    let objects = column_objects(alloc, engine, columns, column)?;
    let mut text = Vec::new(alloc);
    add_title(&mut text, columns, column, objects.len())?;
    add_table(
        alloc,
        &mut text,
        engine,
        columns,
        cells.as_slice(),
        objects.as_slice(),
        steps,
    )?;
    Ok(text)
}

/// The table of a column: object columns alone have one.
pub(crate) fn table<G: Ledger>(
    alloc: Global,
    engine: &mut Engine,
    columns: &Columns,
    column: u32,
    steps: &mut Steps<G>,
) -> Result<Vec<u8>, NoMemory>
    requires columns { columns.now ≡ engine.old.book.columns }
    requires tree { IsTree columns.now }
    requires counted { column < length columns.now }
    ensures text { IfOk result (λ text. text.items ≡ table_of (workbook_in engine.old) column) }
    ensures book { engine.new.book ≡ engine.old.book }
    ensures state { engine.new.state ≡ engine.old.state }
{
    match columns.get(column) {
        Column::Object => object_table(alloc, engine, columns, column, steps),
        Column::State { .. } | Column::Formula { .. } => Ok(Vec::new(alloc)),
    }
}
