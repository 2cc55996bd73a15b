// The formula cells that are reached from what is used, and the items that it rests on.
ghost use Rattle.std.specs.Prelude.{◌≡◌, ◌++◌, ◌∷◌, [], ◌+◌, IfOk, OnOk, length, fold};
ghost use Rattle.std.specs.List.{filter_map, flat_map};
ghost use Rattle.sheet_values.specs.Sorted.{insert};
ghost use Rattle.sheet_columns.specs.ItemOrder.{item_cmp};
ghost use Rattle.sheet_meaning.specs.Rounds.{item_in as item_told, cell_in as cell_told};
ghost use Rattle.sheet_meaning.specs.Statements.{workbook};
ghost use Rattle.sheet_meaning.specs.Support.{has_cell, with_cell, with_cells, in_order, reached, support};
ghost use Rattle.plain_meaning.specs.Tables.{settled_runs};
ghost use Rattle.plain_meaning.specs.Reached.{uses_in, cells_in, items_in, spread_by, reached_by, support_by};

use crate::rounds::{CellRun, run_cells, settled};
use sheet_columns::{Item, Items};
use sheet_meaning::{Schema, State, Use};
use sheet_values::NoMemory;
use std::alloc::Global;

/// A formula cell's object and column.
pub type Cell = (u64, u32);

fn has_cell(cells: &[Cell], cell: Cell) -> bool
    ensures { result ≡ has_cell cells.now cell }
{
    cells
        .iter()
        .any(|other| other.0 == cell.0 && other.1 == cell.1)
}

// Adds a cell at the end, unless it is among them.
fn push_new(cells: &mut Vec<Cell>, cell: Cell) -> Result<(), NoMemory>
    ensures { OnOk result (cells.new.items ≡ with_cell cells.old.items cell) }
{
    if !has_cell(cells.as_slice(), cell) {
        cells.push(cell)?;
    }
    Ok(())
}

/// Cells, and those of others that aren't among them.
pub fn with_cells(cells: Vec<Cell>, more: &[Cell]) -> Result<Vec<Cell>, NoMemory>
    ensures { IfOk result (λ list. list.items ≡ with_cells cells.items more.now) }
{
    let mut list = cells;
    let mut rest = more;
    while let Some((cell, others)) = rest.split_first() {
        push_new(&mut list, *cell)?;
        rest = others;
    }
    Ok(list)
}

fn cell_in(used: &Use) -> Option<Cell>
    ensures { result ≡ cell_told used.now }
{
    match used {
        Use::Read(_) => None,
        Use::Cell(object, column) => Some((*object, *column)),
    }
}

fn item_in(used: &Use) -> Option<Item>
    ensures { result ≡ item_told used.now }
{
    match used {
        Use::Read(item) => Some(*item),
        Use::Cell(_, _) => None,
    }
}

// The formula cells among some uses.
fn cells_used(alloc: Global, uses: &[Use]) -> Result<Vec<Cell>, NoMemory>
    ensures { IfOk result (λ list. list.items ≡ filter_map cell_told uses.now) }
{
    let list = uses.iter().filter_map(|used| cell_in(used)).collect(alloc)?;
    Ok(list)
}

// The items among some uses.
fn items_used(alloc: Global, uses: &[Use]) -> Result<Vec<Item>, NoMemory>
    ensures { IfOk result (λ list. list.items ≡ filter_map item_told uses.now) }
{
    let list = uses.iter().filter_map(|used| item_in(used)).collect(alloc)?;
    Ok(list)
}

// What the formula of a cell uses.
fn uses_in(runs: &[CellRun], cell: Cell) -> &[Use]
    ensures { result.now ≡ uses_in runs.now cell }
{
    let Some((first, more)) = runs.split_first() else {
        return &[];
    };
    if first.object == cell.0 && first.column == cell.1 {
        first.run.uses.as_slice()
    } else {
        uses_in(more, cell)
    }
}

// The formula cells that some cells read directly.
fn cells_read(alloc: Global, runs: &[CellRun], cells: &[Cell]) -> Result<Vec<Cell>, NoMemory>
    ensures { IfOk result (λ list. list.items ≡ flat_map (cells_in runs.now) cells.now) }
{
    let mut list = Vec::new(alloc);
    let mut rest = cells;
    while let Some((cell, more)) = rest.split_first() {
        let read = cells_used(alloc, uses_in(runs, *cell))?;
        list.extend_from_slice(read.as_slice())?;
        rest = more;
    }
    Ok(list)
}

// The items that some cells read directly: whether their own objects are live, and those of their formulas.
fn items_read(alloc: Global, runs: &[CellRun], cells: &[Cell]) -> Result<Vec<Item>, NoMemory>
    ensures { IfOk result (λ list. list.items ≡ flat_map (items_in runs.now) cells.now) }
{
    let mut list = Vec::new(alloc);
    let mut rest = cells;
    while let Some((cell, more)) = rest.split_first() {
        let read = items_used(alloc, uses_in(runs, *cell))?;
        list.push(Item::Live(cell.0))?;
        list.extend_from_slice(read.as_slice())?;
        rest = more;
    }
    Ok(list)
}

// The cells with those that they read directly, so many times over.
fn spread(
    alloc: Global,
    runs: &[CellRun],
    cells: Vec<Cell>,
    count: usize,
) -> Result<Vec<Cell>, NoMemory>
    ensures { IfOk result (λ list. list.items ≡ spread_by (cells_in runs.now) count cells.items) }
{
    let mut list = cells;
    for round in 0..count {
        let read = cells_read(alloc, runs, list.as_slice())?;
        list = with_cells(list, read.as_slice())?;
    }
    Ok(list)
}

// The formula cells that are reached from uses. No longer way is needed than there are formula cells, and one more step.
fn reached_by(alloc: Global, runs: &[CellRun], uses: &[Use]) -> Result<Vec<Cell>, NoMemory>
    ensures { IfOk result (λ list. list.items ≡ reached_by runs.now uses.now) }
{
    let direct = cells_used(alloc, uses)?;
    let cells = with_cells(Vec::new(alloc), direct.as_slice())?;
    spread(alloc, runs, cells, runs.len() + 1)
}

// Items in order, without doubles.
fn in_order(alloc: Global, items: &[Item]) -> Result<Items, NoMemory>
    ensures { IfOk result (λ set. set ≡ in_order items.now) }
{
    let mut set = Items::new(alloc);
    let mut rest = items;
    while let Some((item, more)) = rest.split_first() {
        set.insert(*item)?;
        rest = more;
    }
    Ok(set)
}

/// The items that uses rest on, from the formula cells that are each worked out once.
pub fn support_by(alloc: Global, runs: &[CellRun], uses: &[Use]) -> Result<Items, NoMemory>
    ensures { IfOk result (λ set. set ≡ support_by runs.now uses.now) }
{
    let cells = reached_by(alloc, runs, uses)?;
    let mut items = items_used(alloc, uses)?;
    let more = items_read(alloc, runs, cells.as_slice())?;
    items.extend_from_slice(more.as_slice())?;
    in_order(alloc, items.as_slice())
}

/// Each formula cell, worked out once over the meanings of all.
pub fn settled_runs(alloc: Global, schema: &Schema, state: &State) -> Result<Vec<CellRun>, NoMemory>
    ensures { IfOk result (λ list. list.items ≡ settled_runs (workbook schema.now state.now)) }
{
    let cells = settled(alloc, schema, state)?;
    run_cells(alloc, schema, state, cells.as_slice())
}

/// The formula cells that are reached from what was used.
pub fn reached(
    alloc: Global,
    schema: &Schema,
    state: &State,
    uses: &[Use],
) -> Result<Vec<Cell>, NoMemory>
    ensures { IfOk result (λ list. list.items ≡ reached (workbook schema.now state.now) uses.now) }
{
    let runs = settled_runs(alloc, schema, state)?;
    reached_by(alloc, runs.as_slice(), uses)
}

/// The support of what was used: the items that it rests on.
pub fn support(
    alloc: Global,
    schema: &Schema,
    state: &State,
    uses: &[Use],
) -> Result<Items, NoMemory>
    ensures { IfOk result (λ set. set ≡ support (workbook schema.now state.now) uses.now) }
{
    let runs = settled_runs(alloc, schema, state)?;
    support_by(alloc, runs.as_slice(), uses)
}
