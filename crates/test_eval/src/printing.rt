// What formulas come to and read, as texts.
use sheet_columns::{Cells, Columns, Fault, Item, Place, Reads};
use sheet_eval::Outcome;
use sheet_values::{NoMemory, NotOne, Set, Value};
use std::alloc::Global;

/// What a formula comes to.
pub fn outcome_text(
    alloc: Global,
    columns: &Columns,
    outcome: &Outcome,
) -> Result<String, NoMemory> {
    match outcome {
        Outcome::Known(set) => set_text(alloc, set),
        Outcome::Fault(fault) => fault_text(alloc, columns, *fault),
        Outcome::Need(cells) => {
            let mut text = String::from_str(alloc, "need")?;
            add_cells(alloc, columns, cells, "", &mut text)?;
            Ok(text)
        }
    }
}

/// The items and the formula cells that were read.
pub fn reads_text(alloc: Global, columns: &Columns, reads: &Reads) -> Result<String, NoMemory> {
    let mut text = String::from_str(alloc, "reads")?;
    for k in 0..reads.items.len() {
        let item = item_text(alloc, columns, *reads.items.at(k))?;
        add_part(&mut text, item.as_str())?;
    }
    add_cells(alloc, columns, &reads.cells, "cell ", &mut text)?;
    Ok(text)
}

// Adds a part behind a word and others, from which a comma divides it.
fn add_part(text: &mut String, part: &str) -> Result<(), NoMemory> {
    text.push_str(if text.as_str().contains(' ') {
        ", "
    } else {
        " "
    })?;
    text.push_str(part)?;
    Ok(())
}

fn add_cells(
    alloc: Global,
    columns: &Columns,
    cells: &Cells,
    word: &str,
    text: &mut String,
) -> Result<(), NoMemory> {
    for k in 0..cells.len() {
        let (object, column) = cells.at(k);
        let name = name(columns, column);
        let cell = format!(in alloc; "{word}{object} {name}")?;
        add_part(text, cell.as_str())?;
    }
    Ok(())
}

fn name(columns: &Columns, column: u32) -> &str {
    if column < columns.count() {
        columns.name(column).text()
    } else {
        "?"
    }
}

fn item_text(alloc: Global, columns: &Columns, item: Item) -> Result<String, NoMemory> {
    match item {
        Item::Live(object) => Ok(format!(in alloc; "live {object}")?),
        Item::Up(object) => Ok(format!(in alloc; "up {object}")?),
        Item::Extent(object, column) => {
            let name = name(columns, column);
            Ok(format!(in alloc; "extent {object} {name}")?)
        }
        Item::Stored(object, column) => {
            let name = name(columns, column);
            Ok(format!(in alloc; "stored {object} {name}")?)
        }
    }
}

fn value_text(alloc: Global, value: &Value) -> Result<String, NoMemory> {
    match value {
        Value::Truth(truth) => Ok(format!(in alloc; "{truth}")?),
        Value::Number(number) => Ok(format!(in alloc; "{number}")?),
        Value::Text(name) => Ok(format!(in alloc; "\"{}\"", name.text())?),
        Value::Object(object) => Ok(format!(in alloc; "#{object}")?),
    }
}

// A set between brackets, with blanks between its values.
fn set_text(alloc: Global, set: &Set) -> Result<String, NoMemory> {
    let mut text = String::from_str(alloc, "[")?;
    for k in 0..set.len() {
        if k > 0 {
            text.push_str(" ")?;
        }
        let value = value_text(alloc, set.at(k))?;
        text.push_str(value.as_str())?;
    }
    text.push_str("]")?;
    Ok(text)
}

fn place_text(alloc: Global, columns: &Columns, place: Place) -> Result<String, NoMemory> {
    match place {
        Place::Cell(object, column) => {
            let name = name(columns, column);
            Ok(format!(in alloc; "cell {object} {name}")?)
        }
        Place::Statement(number) => Ok(format!(in alloc; "statement {number}")?),
        Place::Slot(number) => Ok(format!(in alloc; "slot {number}")?),
    }
}

fn fault_text(alloc: Global, columns: &Columns, fault: Fault) -> Result<String, NoMemory> {
    let (word, place) = match fault {
        Fault::Cycle => return Ok(format!(in alloc; "cycle")?),
        Fault::NotOne(NotOne::Zero, place) => ("not one, zero", place),
        Fault::NotOne(NotOne::Many, place) => ("not one, many", place),
        Fault::Overflow(place) => ("overflow", place),
        Fault::ZeroDivisor(place) => ("zero divisor", place),
        Fault::TextTooLong(place) => ("text too long", place),
    };
    let place = place_text(alloc, columns, place)?;
    Ok(format!(in alloc; "{word}, at {place}")?)
}
