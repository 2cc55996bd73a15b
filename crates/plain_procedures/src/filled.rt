// The cells that must hold exactly one value, and what is counted against limits.
ghost use Rattle.std.specs.Prelude.{◌≡◌, ◌++◌, ◌==◌, not, IfOk, OnOk, length, find};
ghost use Rattle.std.specs.List.{flat_map};
ghost use Rattle.sheet_meaning.specs.Workbook.{set_in};
ghost use Rattle.sheet_meaning.specs.WellFormed.{unfilled, stored_values, cell_count};
ghost use Rattle.sheet_meaning.specs.Statements.{workbook};
ghost use Rattle.plain_procedures.specs.Counts.{pairs_of, one_pairs_of, all_pairs, one_pairs};

use crate::changes::{StateColumn, state_columns};
use plain_lists::set_in;
use plain_meaning::{Cell, run_cells};
use sheet_meaning::{LiveObject, Schema, State, StoredCell};
use sheet_values::NoMemory;
use std::alloc::Global;

// The cells of an object in some state columns.
fn push_pairs(object: u64, columns: &[StateColumn], list: &mut Vec<Cell>) -> Result<(), NoMemory>
    ensures { OnOk result (list.new.items ≡ list.old.items ++ pairs_of object columns.now) }
{
    let mut rest = columns;
    while let Some((column, more)) = rest.split_first() {
        list.push((object, column.number))?;
        rest = more;
    }
    Ok(())
}

// Those of its cells that must hold exactly one value.
fn push_one_pairs(
    object: u64,
    columns: &[StateColumn],
    list: &mut Vec<Cell>,
) -> Result<(), NoMemory>
    ensures { OnOk result (list.new.items ≡ list.old.items ++ one_pairs_of object columns.now) }
{
    let mut rest = columns;
    while let Some((column, more)) = rest.split_first() {
        if column.one {
            list.push((object, column.number))?;
        }
        rest = more;
    }
    Ok(())
}

// The state cells of some objects.
fn state_cells(
    alloc: Global,
    schema: &Schema,
    objects: &[LiveObject],
) -> Result<Vec<Cell>, NoMemory>
    ensures { IfOk result (λ list. list.items ≡ flat_map (all_pairs schema.now) objects.now) }
{
    let mut list = Vec::new(alloc);
    let mut rest = objects;
    while let Some((object, more)) = rest.split_first() {
        let columns = state_columns(alloc, &schema.columns, object.column)?;
        push_pairs(object.number, columns.as_slice(), &mut list)?;
        rest = more;
    }
    Ok(list)
}

// Those of their state cells that must hold exactly one value.
fn one_cells(alloc: Global, schema: &Schema, objects: &[LiveObject]) -> Result<Vec<Cell>, NoMemory>
    ensures { IfOk result (λ list. list.items ≡ flat_map (one_pairs schema.now) objects.now) }
{
    let mut list = Vec::new(alloc);
    let mut rest = objects;
    while let Some((object, more)) = rest.split_first() {
        let columns = state_columns(alloc, &schema.columns, object.column)?;
        push_one_pairs(object.number, columns.as_slice(), &mut list)?;
        rest = more;
    }
    Ok(list)
}

fn is_unfilled(alloc: Global, cells: &[StoredCell], cell: Cell) -> Result<bool, NoMemory>
    ensures { IfOk result (λ b. b ≡ not (length (set_in cells.now cell.0 cell.1) == 1)) }
{
    let set = set_in(alloc, cells, cell.0, cell.1)?;
    Ok(set.len() != 1)
}

fn first_unfilled(
    alloc: Global,
    cells: &[StoredCell],
    among: &[Cell],
) -> Result<Option<Cell>, NoMemory>
    ensures { IfOk result (λ found. found ≡ find (λ x. not (length (set_in cells.now x.0 x.1) == 1)) among.now) }
{
    let Some((first, more)) = among.split_first() else {
        return Ok(None);
    };
    if is_unfilled(alloc, cells, *first)? {
        return Ok(Some(*first));
    }
    first_unfilled(alloc, cells, more)
}

/// The first cell, by object and column, that must hold exactly one value and doesn't.
pub fn unfilled(alloc: Global, schema: &Schema, state: &State) -> Result<Option<Cell>, NoMemory>
    ensures { IfOk result (λ found. found ≡ unfilled (workbook schema.now state.now)) }
{
    let among = one_cells(alloc, schema, state.objects.as_slice())?;
    first_unfilled(alloc, state.cells.as_slice(), among.as_slice())
}

/// How many values state cells hold.
pub fn stored_values(cells: &[StoredCell]) -> u128
    ensures { result ≡ stored_values cells.now }
{
    let mut total: u128 = 0;
    for cell in cells {
        total += cell.set.len() as u128;
    }
    total
}

/// How many state and formula cells there are.
pub fn cell_count(alloc: Global, schema: &Schema, state: &State) -> Result<u128, NoMemory>
    ensures { IfOk result (λ count. count ≡ cell_count (workbook schema.now state.now)) }
{
    let stored = state_cells(alloc, schema, state.objects.as_slice())?;
    let runs = run_cells(alloc, schema, state, &[])?;
    let (stored, runs) = (stored.as_slice(), runs.as_slice());
    Ok(stored.len() as u128 + runs.len() as u128)
}
