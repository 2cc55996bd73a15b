// The parts of a page.
ghost use Rattle.std.specs.Prelude.{◌≡◌, [], map, IfOk, OnOk};
ghost use Rattle.sheet_columns.specs.declared.view.CoreSlot.{CoreSlot as TheSlot};
ghost use Rattle.sheet_meaning.specs.Formula.{bind};
ghost use Rattle.sheet_meaning.specs.Page.{slot_run, source_run, row, part_of};
ghost use Rattle.sheet_meaning.specs.Run.{after};
ghost use Rattle.sheet_engine.specs.Seen.{workbook_in};
ghost use Rattle.sheet_views.specs.Pages.{names_of, shown_in, rows_of};

use sheet_columns::{
    Core, CoreSlot, CoreView, Fault, Names, Page, Part, Place, Row, Rows, Shows, Variables,
};
use sheet_engine::Engine;
use sheet_values::{NoMemory, Set, Steps, Value};
use std::alloc::Global;
use std::sync::ledger::Ledger;

/// The parts of a page.
pub(crate) fn page<G: Ledger>(
    alloc: Global,
    engine: &mut Engine,
    views: &[CoreView],
    variables: &mut Variables,
    steps: &mut Steps<G>,
) -> Result<Page, NoMemory>
    ensures page { IfOk result (λ page. page ≡ map (part_of (workbook_in engine.old) variables.old) views.now) }
    ensures variables { OnOk result (variables.new ≡ variables.old) }
    ensures kept { engine.old.kept ≡ [] → OnOk result (engine.new.kept ≡ []) }
    ensures book { engine.new.book ≡ engine.old.book }
    ensures state { engine.new.state ≡ engine.old.state }
{
    let mut page = Page::new(alloc);
    let mut rest = views;
    while let Some((view, more)) = rest.split_first() {
        page.push(part(alloc, engine, view, variables, steps)?)?;
        rest = more;
    }
    Ok(page)
}

// A part of the page.
fn part<G: Ledger>(
    alloc: Global,
    engine: &mut Engine,
    view: &CoreView,
    variables: &mut Variables,
    steps: &mut Steps<G>,
) -> Result<Part, NoMemory>
    ensures part { IfOk result (λ part. part ≡ part_of (workbook_in engine.old) variables.old view.now) }
    ensures variables { OnOk result (variables.new ≡ variables.old) }
    ensures kept { engine.old.kept ≡ [] → OnOk result (engine.new.kept ≡ []) }
    ensures book { engine.new.book ≡ engine.old.book }
    ensures state { engine.new.state ≡ engine.old.state }
{
    match view {
        CoreView::Show(slot) => {
            let shown = shown(engine, slot, variables, steps)?;
            let name = slot.name.copy()?;
            Ok(Part::Show { name, shown })
        }
        CoreView::Table {
            number,
            name,
            source,
            slots,
        } => {
            let (place, slots) = (Place::Slot(*number), slots.as_slice());
            let names = names(alloc, slots)?;
            let rows = rows_or_fault(alloc, engine, source, place, slots, variables, steps)?;
            let name = name.copy()?;
            Ok(Part::Table { name, names, rows })
        }
    }
}

// What a slot shows, or its fault.
fn shown<G: Ledger>(
    engine: &mut Engine,
    slot: &CoreSlot,
    variables: &Variables,
    steps: &mut Steps<G>,
) -> Result<Result<Set, Fault>, NoMemory>
    ensures shown { IfOk result (λ shown. shown ≡ (slot_run (workbook_in engine.old) variables.now slot.now).outcome) }
    ensures kept { OnOk result (engine.new.kept ≡ []) }
    ensures book { engine.new.book ≡ engine.old.book }
    ensures state { engine.new.state ≡ engine.old.state }
{
    engine.work_out(&slot.shown, Place::Slot(slot.number), variables, steps)
}

// The names of a table's slots.
fn names(alloc: Global, slots: &[CoreSlot]) -> Result<Names, NoMemory>
    ensures { IfOk result (λ names. names ≡ names_of slots.now) }
{
    let mut names = Names::new(alloc);
    let mut rest = slots;
    while let Some((slot, more)) = rest.split_first() {
        names.push(slot.name.copy()?)?;
        rest = more;
    }
    Ok(names)
}

// The rows of a table, or the fault of its source, which has that place.
fn rows_or_fault<G: Ledger>(
    alloc: Global,
    engine: &mut Engine,
    source: &Core,
    place: Place,
    slots: &[CoreSlot],
    variables: &mut Variables,
    steps: &mut Steps<G>,
) -> Result<Result<Rows, Fault>, NoMemory>
    ensures rows { IfOk result (λ rows. rows ≡ rows_of (workbook_in engine.old) variables.old source.now place slots.now) }
    ensures variables { OnOk result (variables.new ≡ variables.old) }
    ensures kept { engine.old.kept ≡ [] → OnOk result (engine.new.kept ≡ []) }
    ensures book { engine.new.book ≡ engine.old.book }
    ensures state { engine.new.state ≡ engine.old.state }
{
    match engine.work_out(source, place, variables, steps)? {
        Ok(values) => {
            let rows = rows(alloc, engine, slots, values.as_slice(), variables, steps)?;
            Ok(Ok(rows))
        }
        Err(fault) => Ok(Err(fault)),
    }
}

// A row for each of the values, in order.
fn rows<G: Ledger>(
    alloc: Global,
    engine: &mut Engine,
    slots: &[CoreSlot],
    values: &[Value],
    variables: &mut Variables,
    steps: &mut Steps<G>,
) -> Result<Rows, NoMemory>
    ensures rows { IfOk result (λ rows. rows ≡ map (row (workbook_in engine.old) variables.old slots.now) values.now) }
    ensures variables { OnOk result (variables.new ≡ variables.old) }
    ensures kept { engine.old.kept ≡ [] → OnOk result (engine.new.kept ≡ []) }
    ensures book { engine.new.book ≡ engine.old.book }
    ensures state { engine.new.state ≡ engine.old.state }
{
    let mut rows = Rows::new(alloc);
    let mut rest = values;
    while let Some((value, more)) = rest.split_first() {
        rows.push(row(alloc, engine, slots, value, variables, steps)?)?;
        rest = more;
    }
    Ok(rows)
}

// A table's row for a value, which its slots find behind the other variables.
fn row<G: Ledger>(
    alloc: Global,
    engine: &mut Engine,
    slots: &[CoreSlot],
    value: &Value,
    variables: &mut Variables,
    steps: &mut Steps<G>,
) -> Result<Row, NoMemory>
    ensures row { IfOk result (λ row_made. row_made ≡ row (workbook_in engine.old) variables.old slots.now value.now) }
    ensures variables { OnOk result (variables.new ≡ variables.old) }
    ensures kept { engine.old.kept ≡ [] → OnOk result (engine.new.kept ≡ []) }
    ensures book { engine.new.book ≡ engine.old.book }
    ensures state { engine.new.state ≡ engine.old.state }
{
    let count = variables.len();
    variables.push(Set::one(alloc, value.copy()?)?)?;
    let shows = shows(alloc, engine, slots, variables, steps)?;
    variables.cut(count);
    let of = value.copy()?;
    Ok(Row { of, shows })
}

// What the slots of a row show.
fn shows<G: Ledger>(
    alloc: Global,
    engine: &mut Engine,
    slots: &[CoreSlot],
    variables: &Variables,
    steps: &mut Steps<G>,
) -> Result<Shows, NoMemory>
    ensures shows { IfOk result (λ shows. shows ≡ shown_in (workbook_in engine.old) variables.now slots.now) }
    ensures kept { engine.old.kept ≡ [] → OnOk result (engine.new.kept ≡ []) }
    ensures book { engine.new.book ≡ engine.old.book }
    ensures state { engine.new.state ≡ engine.old.state }
{
    let mut shows = Shows::new(alloc);
    let mut rest = slots;
    while let Some((slot, more)) = rest.split_first() {
        shows.push(shown(engine, slot, variables, steps)?)?;
        rest = more;
    }
    Ok(shows)
}
