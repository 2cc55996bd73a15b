// The rounds in which formula cells are settled.
ghost use Rattle.std.specs.Prelude.{◌≡◌, ◌++◌, ◌∷◌, [], IfOk, OnOk, map, length};
ghost use Rattle.std.specs.Option.{option_to_list};
ghost use Rattle.std.specs.List.{filter_map, flat_map};
ghost use Rattle.sheet_values.specs.declared.value.Value.TheVariants.{Object};
ghost use Rattle.sheet_columns.specs.Tree.{above_of, is_number};
ghost use Rattle.sheet_meaning.specs.Workbook.{formula_cell};
ghost use Rattle.sheet_meaning.specs.Statements.{workbook};
ghost use Rattle.sheet_meaning.specs.Rounds.{table, settled_run};
ghost use Rattle.plain_lists.specs.Told.{scene};
ghost use Rattle.plain_meaning.specs.Tables.{cells_with, settled_cells, cells_under, cell_run, cell_runs, worked, unworked};

use plain_formulas::work_out;
use plain_lists::{WorkedCell, alone};
use sheet_columns::{Columns, Core, Fault, Place};
use sheet_meaning::{ColumnFormula, LiveObject, Run, Schema, State};
use sheet_values::{NoMemory, Value, Values};
use std::alloc::Global;

/// A formula cell, and what its formula comes to and uses.
#[derive(Debug, Drop)]
pub struct CellRun {
    pub object: u64,
    pub column: u32,
    pub run: Run<Values>,
}

/// The column that a column stands directly under.
pub fn column_above(columns: &Columns, column: u32) -> Option<u32>
    ensures { result ≡ above_of columns.now column }
{
    let count = columns.count();
    if column == 0 {
        return None;
    }
    if column >= count {
        return None;
    }
    Some(columns.above(column))
}

pub fn is_column(column: u32, found: Option<u32>) -> bool
    ensures { result ≡ is_number column found }
{
    match found {
        Some(other) => column == other,
        None => false,
    }
}

// The set of an object, which `this` holds.
fn this(alloc: Global, object: u64) -> Result<Vec<Values>, NoMemory>
    ensures { IfOk result (λ list. list.items ≡ (Object object ∷ []) ∷ []) }
{
    let mut list = Vec::new(alloc);
    list.push(alone(alloc, Value::Object(object))?)?;
    Ok(list)
}

// Adds the formula cell of an object in a formula column, where the column stands under the object's column.
fn push_cell(
    alloc: Global,
    schema: &Schema,
    state: &State,
    cells: &[WorkedCell],
    object: &LiveObject,
    formula: &ColumnFormula,
    list: &mut Vec<CellRun>,
) -> Result<(), NoMemory>
    ensures { OnOk result (list.new.items ≡ list.old.items ++ map (cell_run (scene state.now cells.now)) (option_to_list (formula_cell schema.now object.now.number object.now.column formula.now))) }
{
    let above = column_above(&schema.columns, formula.column);
    if is_column(object.column, above) {
        let variables = this(alloc, object.number)?;
        let place = Place::Cell(object.number, formula.column);
        let run = work_out(
            alloc,
            &formula.core,
            state,
            cells,
            place,
            variables.as_slice(),
        )?;
        list.push(CellRun {
            object: object.number,
            column: formula.column,
            run,
        })?;
    }
    Ok(())
}

// Adds the formula cells of an object in some formula columns.
fn push_cells(
    alloc: Global,
    schema: &Schema,
    state: &State,
    cells: &[WorkedCell],
    object: &LiveObject,
    formulas: &[ColumnFormula],
    list: &mut Vec<CellRun>,
) -> Result<(), NoMemory>
    ensures { OnOk result (list.new.items ≡ list.old.items ++ map (cell_run (scene state.now cells.now)) (filter_map (formula_cell schema.now object.now.number object.now.column) formulas.now)) }
{
    for formula in formulas {
        push_cell(alloc, schema, state, cells, object, formula, list)?;
    }
    Ok(())
}

// The formula cells of some objects, each worked out once.
fn runs_of(
    alloc: Global,
    schema: &Schema,
    state: &State,
    cells: &[WorkedCell],
    objects: &[LiveObject],
) -> Result<Vec<CellRun>, NoMemory>
    ensures { IfOk result (λ list. list.items ≡ map (cell_run (scene state.now cells.now)) (flat_map (cells_under schema.now) objects.now)) }
{
    let formulas = schema.formulas.as_slice();
    let mut list = Vec::new(alloc);
    let mut rest = objects;
    while let Some((object, more)) = rest.split_first() {
        push_cells(alloc, schema, state, cells, object, formulas, &mut list)?;
        rest = more;
    }
    Ok(list)
}

/// Each formula cell, worked out once over the outcomes that the cells have so far.
pub fn run_cells(
    alloc: Global,
    schema: &Schema,
    state: &State,
    cells: &[WorkedCell],
) -> Result<Vec<CellRun>, NoMemory>
    ensures { IfOk result (λ list. list.items ≡ cell_runs (workbook schema.now state.now) (scene state.now cells.now)) }
{
    runs_of(alloc, schema, state, cells, state.objects.as_slice())
}

// The cells without outcomes.
fn unworked_cells(alloc: Global, runs: Vec<CellRun>) -> Result<Vec<WorkedCell>, NoMemory>
    ensures { IfOk result (λ list. list.items ≡ map unworked runs.items) }
{
    let mut list = Vec::new(alloc);
    for run in runs {
        list.push(WorkedCell {
            object: run.object,
            column: run.column,
            outcome: Err(Fault::Cycle),
        })?;
    }
    Ok(list)
}

// The cells with their outcomes.
fn worked_cells(alloc: Global, runs: Vec<CellRun>) -> Result<Vec<WorkedCell>, NoMemory>
    ensures { IfOk result (λ list. list.items ≡ map worked runs.items) }
{
    let mut list = Vec::new(alloc);
    for cell in runs {
        let CellRun {
            object,
            column,
            run,
        } = cell;
        let Run { outcome, uses: _ } = run;
        list.push(WorkedCell {
            object,
            column,
            outcome,
        })?;
    }
    Ok(list)
}

/// The formula cells after so many rounds; at first none has an outcome.
pub fn table_after(
    alloc: Global,
    schema: &Schema,
    state: &State,
    count: usize,
) -> Result<Vec<WorkedCell>, NoMemory>
    ensures { IfOk result (λ list. list.items ≡ cells_with (workbook schema.now state.now) (table (workbook schema.now state.now) count)) }
{
    let mut cells = unworked_cells(alloc, run_cells(alloc, schema, state, &[])?)?;
    for round in 0..count {
        let runs = run_cells(alloc, schema, state, cells.as_slice())?;
        cells = worked_cells(alloc, runs)?;
    }
    Ok(cells)
}

/// The formula cells with their meanings: after as many rounds as there are formula cells.
pub fn settled(alloc: Global, schema: &Schema, state: &State) -> Result<Vec<WorkedCell>, NoMemory>
    ensures { IfOk result (λ list. list.items ≡ settled_cells (workbook schema.now state.now)) }
{
    let runs = run_cells(alloc, schema, state, &[])?;
    table_after(alloc, schema, state, runs.len())
}

/// A formula, worked out over the meanings of the formula cells, which are given.
pub fn value_of(
    alloc: Global,
    schema: &Schema,
    state: &State,
    cells: &[WorkedCell],
    core: &Core,
    place: Place,
    variables: &[Values],
) -> Result<Run<Values>, NoMemory>
    requires { cells.now ≡ settled_cells (workbook schema.now state.now) }
    ensures { IfOk result (λ r. r ≡ settled_run (workbook schema.now state.now) core.now place variables.now) }
{
    work_out(alloc, core, state, cells, place, variables)
}
