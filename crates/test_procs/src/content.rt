// What a workbook stores, as a text.
use sheet_columns::{Column, Columns};
use sheet_state::State;
use sheet_values::NoMemory;
use std::alloc::Global;
use test_language_replies::set_text;

/// No object of an example has this number or a greater one.
const MOST_NUMBERS: u64 = 200_000;

// A state column directly under a column, with what the cell of an object holds; nothing of another column.
fn cell_text(
    alloc: Global,
    columns: &Columns,
    state: &State,
    object: u64,
    column: u32,
) -> Result<String, NoMemory> {
    if column == 0 || column >= columns.count() {
        return Ok(String::new(alloc));
    }
    let is_under = state.column_of(object) == Some(columns.above(column));
    if !is_under || !matches!(columns.get(column), Column::State { .. }) {
        return Ok(String::new(alloc));
    }
    let name = columns.name(column).text();
    let set = set_text(alloc, state.cell(object, column).as_slice())?;
    Ok(format!(in alloc; ", {name} {set}")?)
}

// The cells of an object.
fn cells_text(
    alloc: Global,
    columns: &Columns,
    state: &State,
    object: u64,
) -> Result<String, NoMemory> {
    let mut out = String::new(alloc);
    for column in 0..columns.count() {
        let cell = cell_text(alloc, columns, state, object, column)?;
        out.push_str(cell.as_str())?;
    }
    Ok(out)
}

// A live object in a line of its own.
fn object_text(
    alloc: Global,
    columns: &Columns,
    state: &State,
    object: u64,
    column: u32,
) -> Result<String, NoMemory> {
    if column >= columns.count() {
        return Ok(String::new(alloc));
    }
    let name = columns.name(column).text();
    let cells = cells_text(alloc, columns, state, object)?;
    match state.parent(object) {
        Some(parent) => Ok(format!(in alloc; "    #{object} {name} under #{parent}{cells}\n")?),
        None => Ok(format!(in alloc; "    #{object} {name}{cells}\n")?),
    }
}

/// The live objects, each with what it stands under and what its cells hold.
pub fn state_text(alloc: Global, columns: &Columns, state: &State) -> Result<String, NoMemory> {
    let mut out = String::new(alloc);
    let mut found = 0;
    for object in 0..MOST_NUMBERS {
        if found == state.objects() {
            return Ok(out);
        }
        if let Some(column) = state.column_of(object) {
            let line = object_text(alloc, columns, state, object, column)?;
            out.push_str(line.as_str())?;
            found = found.saturating_add(1);
        }
    }
    Ok(out)
}
