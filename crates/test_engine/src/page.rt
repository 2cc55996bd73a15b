// What views show.
ghost use Rattle.std.specs.Prelude.{◌≡◌};

use crate::words::number;
use plain_meaning::{PlainPart, PlainRow, Shown};
use sheet_columns::{Core, CoreSlot, CoreView, Place, Sequence, Variables};
use sheet_engine::Engine;
use sheet_values::{Name, NoMemory, Set, Steps, Value, Values};
use std::alloc::Global;
use std::sync::ledger::Ledger;
use test_cases::word_and_text;
use test_language_replies::page_text;

/// What a view shows a caller.
pub fn shown<G: Ledger>(
    alloc: Global,
    engine: &mut Engine,
    rest: &[u8],
    steps: &mut Steps<G>,
) -> Result<String, NoMemory>
    ensures same { engine.new.state ≡ engine.old.state }
{
    let (name, caller) = word_and_text(rest);
    let book = engine.shared_book()?;
    let Some(view) = book.view_named(name) else {
        return Ok(String::from_str(alloc, "no such view")?);
    };
    if view >= book.views() {
        return Ok(String::from_str(alloc, "no such view")?);
    }
    let variables = first_variables(alloc, caller)?;
    let views = book.view(view).parts.as_slice();
    let parts = parts(alloc, engine, views, &variables, steps)?;
    page_text(alloc, book.columns(), parts.as_slice())
}

// The variables of a view without parameters: its caller, and whether that is the operator.
fn first_variables(alloc: Global, caller: &[u8]) -> Result<Variables, NoMemory> {
    let mut variables = Variables::new(alloc);
    if caller.is_empty() {
        variables.push(Set::empty(alloc))?;
    } else {
        variables.push(Set::one(alloc, Value::Object(number(caller)))?)?;
    }
    variables.push(Set::one(alloc, Value::Truth(caller.is_empty()))?)?;
    Ok(variables)
}

// The parts of a page.
fn parts<G: Ledger>(
    alloc: Global,
    engine: &mut Engine,
    views: &[CoreView],
    variables: &Variables,
    steps: &mut Steps<G>,
) -> Result<Sequence<PlainPart>, NoMemory>
    ensures same { engine.new.state ≡ engine.old.state }
{
    let mut parts = Sequence::new(alloc);
    for view in views {
        parts.push(part(alloc, engine, view, variables, steps)?)?;
    }
    Ok(parts)
}

// A part of a page.
fn part<G: Ledger>(
    alloc: Global,
    engine: &mut Engine,
    view: &CoreView,
    variables: &Variables,
    steps: &mut Steps<G>,
) -> Result<PlainPart, NoMemory>
    ensures same { engine.new.state ≡ engine.old.state }
{
    match view {
        CoreView::Show(slot) => {
            let name = slot.name.copy()?;
            let shown = slot_shown(alloc, engine, slot, variables, steps)?;
            Ok(PlainPart::Show(name, shown))
        }
        CoreView::Table {
            number,
            name,
            source,
            slots,
        } => {
            let (name, slots) = (name.copy()?, slots.as_slice());
            table(
                alloc, engine, *number, name, source, slots, variables, steps,
            )
        }
    }
}

// A table: its source, and a row for each value of it.
fn table<G: Ledger>(
    alloc: Global,
    engine: &mut Engine,
    number: u32,
    name: Name,
    source: &Core,
    slots: &[CoreSlot],
    variables: &Variables,
    steps: &mut Steps<G>,
) -> Result<PlainPart, NoMemory>
    ensures same { engine.new.state ≡ engine.old.state }
{
    let names = names(alloc, slots)?;
    match engine.work_out(source, Place::Slot(number), variables, steps)? {
        Ok(set) => {
            let rows = rows(alloc, engine, &set, slots, variables, steps)?;
            Ok(PlainPart::Table(name, names, Ok(rows)))
        }
        Err(fault) => Ok(PlainPart::Table(name, names, Err(fault))),
    }
}

// The names of slots.
fn names(alloc: Global, slots: &[CoreSlot]) -> Result<Sequence<Name>, NoMemory> {
    let mut names = Sequence::new(alloc);
    for slot in slots {
        names.push(slot.name.copy()?)?;
    }
    Ok(names)
}

// A row for each value of a set.
fn rows<G: Ledger>(
    alloc: Global,
    engine: &mut Engine,
    set: &Set,
    slots: &[CoreSlot],
    variables: &Variables,
    steps: &mut Steps<G>,
) -> Result<Sequence<PlainRow>, NoMemory>
    ensures same { engine.new.state ≡ engine.old.state }
{
    let mut rows = Sequence::new(alloc);
    for value in set.as_slice() {
        rows.push(row(alloc, engine, value, slots, variables, steps)?)?;
    }
    Ok(rows)
}

// The row for a value.
fn row<G: Ledger>(
    alloc: Global,
    engine: &mut Engine,
    value: &Value,
    slots: &[CoreSlot],
    variables: &Variables,
    steps: &mut Steps<G>,
) -> Result<PlainRow, NoMemory>
    ensures same { engine.new.state ≡ engine.old.state }
{
    let bound = bound(alloc, variables, value)?;
    let shows = slots_shown(alloc, engine, slots, &bound, steps)?;
    Ok(PlainRow {
        of: value.copy()?,
        shows,
    })
}

// The variables with one more.
fn bound(alloc: Global, variables: &Variables, value: &Value) -> Result<Variables, NoMemory> {
    let mut bound = Variables::new(alloc);
    for k in 0..variables.len() {
        bound.push(variables.at(k).copy()?)?;
    }
    bound.push(Set::one(alloc, value.copy()?)?)?;
    Ok(bound)
}

// What some slots show.
fn slots_shown<G: Ledger>(
    alloc: Global,
    engine: &mut Engine,
    slots: &[CoreSlot],
    variables: &Variables,
    steps: &mut Steps<G>,
) -> Result<Sequence<Shown>, NoMemory>
    ensures same { engine.new.state ≡ engine.old.state }
{
    let mut shows = Sequence::new(alloc);
    for slot in slots {
        shows.push(slot_shown(alloc, engine, slot, variables, steps)?)?;
    }
    Ok(shows)
}

// What a slot shows.
fn slot_shown<G: Ledger>(
    alloc: Global,
    engine: &mut Engine,
    slot: &CoreSlot,
    variables: &Variables,
    steps: &mut Steps<G>,
) -> Result<Shown, NoMemory>
    ensures same { engine.new.state ≡ engine.old.state }
{
    let place = Place::Slot(slot.number);
    match engine.work_out(&slot.shown, place, variables, steps)? {
        Ok(set) => {
            let values = values_of(alloc, &set)?;
            Ok(Ok(values))
        }
        Err(fault) => Ok(Err(fault)),
    }
}

// The values of a set.
fn values_of(alloc: Global, set: &Set) -> Result<Values, NoMemory> {
    let mut values = Values::new(alloc);
    for value in set.as_slice() {
        values.push(value.copy()?)?;
    }
    Ok(values)
}
