// The page of a view, and what it rests on.
ghost use Rattle.std.specs.Prelude.{◌≡◌, IfOk, map};
ghost use Rattle.sheet_meaning.specs.Formula.{bind, objects_of};
ghost use Rattle.sheet_meaning.specs.Statements.{workbook};
ghost use Rattle.sheet_meaning.specs.Procedure.{first_variables};
ghost use Rattle.sheet_meaning.specs.Page.{slot_run, row, part_of, page};
ghost use Rattle.plain_meaning.specs.Tables.{settled_cells};
ghost use Rattle.plain_meaning.specs.Pages.{as_row, as_part, IsPage, names_of};

use crate::rounds::{settled, value_of};
use crate::stop::Stop;
use plain_formulas::truth;
use plain_lists::{WorkedCell, alone, copied};
use sheet_columns::{Core, CoreSlot, CoreView, Fault, Place, Sequence};
use sheet_meaning::{Caller, Refusal, Run, Schema, State};
use sheet_values::{Name, NoMemory, Value, Values};
use std::alloc::Global;

/// What a row or a part shows: a set, as a list in order without doubles, or a fault.
pub type Shown = Result<Values, Fault>;

/// A row of a table.
#[derive(Debug, Drop)]
pub struct PlainRow {
    /// The value that the row is for.
    pub of: Value,
    /// What it shows in each slot.
    pub shows: Sequence<Shown>,
}

/// A part of a page.
#[derive(Debug, Drop)]
pub enum PlainPart {
    /// One set.
    Show(Name, Shown),
    /// One row for each value of a set, and the names of the slots.
    Table(Name, Sequence<Name>, Result<Sequence<PlainRow>, Fault>),
}

/// What a slot's formula comes to.
pub fn slot_run(
    alloc: Global,
    schema: &Schema,
    state: &State,
    cells: &[WorkedCell],
    variables: &[Values],
    slot: &CoreSlot,
) -> Result<Run<Values>, NoMemory>
    requires { cells.now ≡ settled_cells (workbook schema.now state.now) }
    ensures { IfOk result (λ r. r ≡ slot_run (workbook schema.now state.now) variables.now slot.now) }
{
    let place = Place::Slot(slot.number);
    value_of(alloc, schema, state, cells, &slot.shown, place, variables)
}

/// The variables with one more, which holds the value.
pub fn bound(alloc: Global, variables: &[Values], value: &Value) -> Result<Vec<Values>, NoMemory>
    ensures { IfOk result (λ list. list.items ≡ bind variables.now value.now) }
{
    let mut list = Vec::new(alloc);
    for set in variables {
        list.push(copied(alloc, set.as_slice())?)?;
    }
    list.push(alone(alloc, value.copy()?)?)?;
    Ok(list)
}

// What the slots of a row show.
fn shows(
    alloc: Global,
    schema: &Schema,
    state: &State,
    cells: &[WorkedCell],
    variables: &[Values],
    slots: &[CoreSlot],
) -> Result<Sequence<Shown>, NoMemory>
    requires { cells.now ≡ settled_cells (workbook schema.now state.now) }
    ensures { IfOk result (λ list. list ≡ map (λ slot. (slot_run (workbook schema.now state.now) variables.now slot).outcome) slots.now) }
{
    let mut list = Sequence::new(alloc);
    let mut rest = slots;
    while let Some((slot, more)) = rest.split_first() {
        let Run { outcome, uses: _ } = slot_run(alloc, schema, state, cells, variables, slot)?;
        list.push(outcome)?;
        rest = more;
    }
    Ok(list)
}

// A table's row for a value.
fn row(
    alloc: Global,
    schema: &Schema,
    state: &State,
    cells: &[WorkedCell],
    variables: &[Values],
    slots: &[CoreSlot],
    value: &Value,
) -> Result<PlainRow, NoMemory>
    requires { cells.now ≡ settled_cells (workbook schema.now state.now) }
    ensures { IfOk result (λ r. as_row r ≡ row (workbook schema.now state.now) variables.now slots.now value.now) }
{
    let bound = bound(alloc, variables, value)?;
    let shows = shows(alloc, schema, state, cells, bound.as_slice(), slots)?;
    Ok(PlainRow {
        of: value.copy()?,
        shows,
    })
}

// A table's rows.
fn rows(
    alloc: Global,
    schema: &Schema,
    state: &State,
    cells: &[WorkedCell],
    variables: &[Values],
    slots: &[CoreSlot],
    values: &[Value],
) -> Result<Sequence<PlainRow>, NoMemory>
    requires { cells.now ≡ settled_cells (workbook schema.now state.now) }
    ensures { IfOk result (λ list. map as_row list ≡ map (row (workbook schema.now state.now) variables.now slots.now) values.now) }
{
    let mut list = Sequence::new(alloc);
    let mut rest = values;
    while let Some((value, more)) = rest.split_first() {
        list.push(row(alloc, schema, state, cells, variables, slots, value)?)?;
        rest = more;
    }
    Ok(list)
}

// The names of a table's slots.
fn names(alloc: Global, slots: &[CoreSlot]) -> Result<Sequence<Name>, NoMemory>
    ensures { IfOk result (λ list. list ≡ names_of slots.now) }
{
    let mut list = Sequence::new(alloc);
    let mut rest = slots;
    while let Some((slot, more)) = rest.split_first() {
        list.push(slot.name.copy()?)?;
        rest = more;
    }
    Ok(list)
}

// A part of the page.
fn part(
    alloc: Global,
    schema: &Schema,
    state: &State,
    cells: &[WorkedCell],
    variables: &[Values],
    view: &CoreView,
) -> Result<PlainPart, NoMemory>
    requires { cells.now ≡ settled_cells (workbook schema.now state.now) }
    ensures { IfOk result (λ p. as_part p ≡ part_of (workbook schema.now state.now) variables.now view.now) }
{
    match view {
        CoreView::Show(slot) => {
            let Run { outcome, uses: _ } = slot_run(alloc, schema, state, cells, variables, slot)?;
            Ok(PlainPart::Show(slot.name.copy()?, outcome))
        }
        CoreView::Table {
            number,
            name,
            source,
            slots,
        } => {
            let place = Place::Slot(*number);
            let names = names(alloc, slots.as_slice())?;
            let Run { outcome, uses: _ } = value_of(
                alloc, schema, state, cells, source, place, variables,
            )?;
            match outcome {
                Ok(values) => {
                    let (slots, values) = (slots.as_slice(), values.as_slice());
                    let rows = rows(alloc, schema, state, cells, variables, slots, values)?;
                    Ok(PlainPart::Table(name.copy()?, names, Ok(rows)))
                }
                Err(fault) => Ok(PlainPart::Table(name.copy()?, names, Err(fault))),
            }
        }
    }
}

// The parts of the page.
fn parts(
    alloc: Global,
    schema: &Schema,
    state: &State,
    cells: &[WorkedCell],
    variables: &[Values],
    views: &[CoreView],
) -> Result<Sequence<PlainPart>, NoMemory>
    requires { cells.now ≡ settled_cells (workbook schema.now state.now) }
    ensures { IfOk result (λ list. map as_part list ≡ map (part_of (workbook schema.now state.now) variables.now) views.now) }
{
    let mut list = Sequence::new(alloc);
    let mut rest = views;
    while let Some((view, more)) = rest.split_first() {
        list.push(part(alloc, schema, state, cells, variables, view)?)?;
        rest = more;
    }
    Ok(list)
}

fn caller_set(alloc: Global, object: Option<u64>) -> Result<Values, NoMemory>
    ensures { IfOk result (λ set. set ≡ objects_of object) }
{
    match object {
        Some(number) => alone(alloc, Value::Object(number)),
        None => Ok(Values::new(alloc)),
    }
}

/// The variables at the start: `caller`, `operator`, and the arguments.
pub fn first_variables(
    alloc: Global,
    caller: Caller,
    arguments: &[Value],
) -> Result<Vec<Values>, NoMemory>
    ensures { IfOk result (λ list. list.items ≡ first_variables caller arguments.now) }
{
    let mut list = Vec::new(alloc);
    list.push(caller_set(alloc, caller.object)?)?;
    list.push(alone(alloc, Value::Truth(caller.operator))?)?;
    let mut rest = arguments;
    while let Some((value, more)) = rest.split_first() {
        list.push(alone(alloc, value.copy()?)?)?;
        rest = more;
    }
    Ok(list)
}

/// The page of a view, whose `allow` formula and parts are given, for a caller and arguments.
///
/// `Denied` where the `allow` formula is false, and `FormulaFault` where it has a fault.
pub fn page(
    alloc: Global,
    schema: &Schema,
    state: &State,
    allow: &Core,
    views: &[CoreView],
    caller: Caller,
    arguments: &[Value],
) -> Result<Sequence<PlainPart>, Stop>
    ensures { IsPage result (page (workbook schema.now state.now) allow.now views.now caller arguments.now) }
{
    let variables = first_variables(alloc, caller, arguments)?;
    let cells = settled(alloc, schema, state)?;
    let place = Place::Slot(0);
    let (known, bound) = (cells.as_slice(), variables.as_slice());
    let run = value_of(alloc, schema, state, known, allow, place, bound)?;
    let Run { outcome, uses: _ } = truth(alloc, place, run)?;
    match outcome {
        Ok(true) => {
            let shown = parts(alloc, schema, state, known, bound, views)?;
            Ok(shown)
        }
        Ok(false) => Err(Stop::Refused(Refusal::Denied)),
        Err(fault) => Err(Stop::Refused(Refusal::FormulaFault(fault))),
    }
}
