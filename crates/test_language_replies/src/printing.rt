// Results in the form of replies.
use plain_meaning::{PlainPart, PlainRow, Shown};
use sheet_columns::{Columns, Fault, Item, Place};
use sheet_meaning::{Refusal, Which};
use sheet_values::{Name, NoMemory, NotOne, Value};
use std::alloc::Global;

fn value_text(alloc: Global, value: &Value) -> Result<String, NoMemory> {
    match value {
        Value::Truth(truth) => Ok(format!(in alloc; "{truth}")?),
        Value::Number(number) => Ok(format!(in alloc; "{number}")?),
        Value::Text(text) => quoted(alloc, text),
        Value::Object(object) => Ok(format!(in alloc; "{{\"object\":{object}}}")?),
    }
}

// A text between quotation marks.
fn quoted(alloc: Global, text: &Name) -> Result<String, NoMemory> {
    let mut out = String::from_str(alloc, "\"")?;
    out.push_str(text.text())?;
    out.push_str("\"")?;
    Ok(out)
}

// Adds a part behind others, from which a comma divides it.
fn add_part(out: &mut String, part: &str, is_first: bool) -> Result<(), NoMemory> {
    if !is_first {
        out.push_str(",")?;
    }
    out.push_str(part)?;
    Ok(())
}

/// A set.
pub fn set_text(alloc: Global, values: &[Value]) -> Result<String, NoMemory> {
    let mut out = String::from_str(alloc, "[")?;
    let mut is_first = true;
    for value in values {
        let part = value_text(alloc, value)?;
        add_part(&mut out, part.as_str(), is_first)?;
        is_first = false;
    }
    out.push_str("]")?;
    Ok(out)
}

// The path of a column.
fn path(alloc: Global, columns: &Columns, column: u32) -> Result<String, NoMemory> {
    if column < columns.count() {
        let path = columns.path_text(column)?;
        quoted(alloc, &path)
    } else {
        Ok(String::new(alloc))
    }
}

fn place_text(alloc: Global, columns: &Columns, place: Place) -> Result<String, NoMemory> {
    match place {
        Place::Cell(object, column) => {
            let path = path(alloc, columns, column)?;
            Ok(format!(in alloc; "{{\"cell\":[{path},{object}]}}")?)
        }
        Place::Statement(number) => Ok(format!(in alloc; "{{\"statement\":{number}}}")?),
        Place::Slot(number) => Ok(format!(in alloc; "{{\"slot\":{number}}}")?),
    }
}

fn placed(alloc: Global, columns: &Columns, fault: &str, place: Place) -> Result<String, NoMemory> {
    let place = place_text(alloc, columns, place)?;
    Ok(format!(in alloc; "{{\"fault\":\"{fault}\",\"place\":{place}}}")?)
}

fn found(how: NotOne) -> &'static str {
    match how {
        NotOne::Zero => "zero",
        NotOne::Many => "many",
    }
}

fn fault_text(alloc: Global, columns: &Columns, fault: Fault) -> Result<String, NoMemory> {
    match fault {
        Fault::Cycle => Ok(String::from_str(alloc, "{\"fault\":\"cycle\"}")?),
        Fault::NotOne(how, place) => {
            let found = found(how);
            let place = place_text(alloc, columns, place)?;
            Ok(format!(in alloc;
                "{{\"fault\":\"not one\",\"found\":\"{found}\",\"place\":{place}}}"
            )?)
        }
        Fault::Overflow(place) => placed(alloc, columns, "overflow", place),
        Fault::ZeroDivisor(place) => placed(alloc, columns, "zero divisor", place),
        Fault::TextTooLong(place) => placed(alloc, columns, "text too long", place),
    }
}

/// What a slot shows.
pub fn shown_text(alloc: Global, columns: &Columns, shown: &Shown) -> Result<String, NoMemory> {
    match shown {
        Ok(values) => set_text(alloc, values.as_slice()),
        Err(fault) => fault_text(alloc, columns, *fault),
    }
}

fn row_text(alloc: Global, columns: &Columns, row: &PlainRow) -> Result<String, NoMemory> {
    let of = value_text(alloc, &row.of)?;
    let mut out = format!(in alloc; "{{\"of\":{of},\"shows\":[")?;
    let mut is_first = true;
    for shown in row.shows.as_slice() {
        let part = shown_text(alloc, columns, shown)?;
        add_part(&mut out, part.as_str(), is_first)?;
        is_first = false;
    }
    out.push_str("]}")?;
    Ok(out)
}

fn rows_text(alloc: Global, columns: &Columns, rows: &[PlainRow]) -> Result<String, NoMemory> {
    let mut out = String::from_str(alloc, "[")?;
    let mut is_first = true;
    for row in rows {
        let part = row_text(alloc, columns, row)?;
        add_part(&mut out, part.as_str(), is_first)?;
        is_first = false;
    }
    out.push_str("]")?;
    Ok(out)
}

fn names_text(alloc: Global, names: &[Name]) -> Result<String, NoMemory> {
    let mut out = String::from_str(alloc, "[")?;
    let mut is_first = true;
    for name in names {
        let part = quoted(alloc, name)?;
        add_part(&mut out, part.as_str(), is_first)?;
        is_first = false;
    }
    out.push_str("]")?;
    Ok(out)
}

fn part_text(alloc: Global, columns: &Columns, part: &PlainPart) -> Result<String, NoMemory> {
    match part {
        PlainPart::Show(name, shown) => {
            let name = quoted(alloc, name)?;
            let shown = shown_text(alloc, columns, shown)?;
            Ok(format!(in alloc; "{{\"name\":{name},\"shows\":{shown}}}")?)
        }
        PlainPart::Table(name, names, rows) => {
            let name = quoted(alloc, name)?;
            let names = names_text(alloc, names.as_slice())?;
            let rows = match rows {
                Ok(rows) => rows_text(alloc, columns, rows.as_slice())?,
                Err(fault) => fault_text(alloc, columns, *fault)?,
            };
            Ok(format!(in alloc; "{{\"name\":{name},\"names\":{names},\"table\":{rows}}}")?)
        }
    }
}

/// A page.
pub fn page_text(
    alloc: Global,
    columns: &Columns,
    parts: &[PlainPart],
) -> Result<String, NoMemory> {
    let mut out = String::from_str(alloc, "{\"page\":[")?;
    let mut is_first = true;
    for part in parts {
        let text = part_text(alloc, columns, part)?;
        add_part(&mut out, text.as_str(), is_first)?;
        is_first = false;
    }
    out.push_str("]}")?;
    Ok(out)
}

fn item_text(alloc: Global, columns: &Columns, item: Item) -> Result<String, NoMemory> {
    match item {
        Item::Live(object) => Ok(format!(in alloc; "[\"live\",{object}]")?),
        Item::Up(object) => Ok(format!(in alloc; "[\"up\",{object}]")?),
        Item::Extent(object, column) => {
            let path = path(alloc, columns, column)?;
            Ok(format!(in alloc; "[\"extent\",{object},{path}]")?)
        }
        Item::Stored(object, column) => {
            let path = path(alloc, columns, column)?;
            Ok(format!(in alloc; "[\"stored\",{object},{path}]")?)
        }
    }
}

/// Items.
pub fn items_text(alloc: Global, columns: &Columns, items: &[Item]) -> Result<String, NoMemory> {
    let mut out = String::from_str(alloc, "{\"reads\":[")?;
    let mut is_first = true;
    for item in items {
        let part = item_text(alloc, columns, *item)?;
        add_part(&mut out, part.as_str(), is_first)?;
        is_first = false;
    }
    out.push_str("]}")?;
    Ok(out)
}

fn which_text(which: Which) -> &'static str {
    match which {
        Which::Objects => "objects",
        Which::Cells => "cells",
        Which::Values => "values",
        Which::Numbers => "numbers",
        Which::Reply => "reply",
        Which::Requests => "requests",
    }
}

/// Why a procedure or a view is refused.
pub fn refusal_text(
    alloc: Global,
    columns: &Columns,
    refusal: &Refusal,
) -> Result<String, NoMemory> {
    match refusal {
        Refusal::Denied => Ok(String::from_str(alloc, "{\"error\":\"denied\"}")?),
        Refusal::CheckFailed(number, message) => {
            let message = quoted(alloc, message)?;
            Ok(format!(in alloc;
                "{{\"error\":\"check failed\",\"message\":{message},\"statement\":{number}}}"
            )?)
        }
        Refusal::FormulaFault(fault) => {
            let fault = fault_text(alloc, columns, *fault)?;
            Ok(format!(in alloc; "{{\"error\":\"formula fault\",\"fault\":{fault}}}")?)
        }
        Refusal::Full(which, limit) => {
            let which = which_text(*which);
            Ok(format!(in alloc; "{{\"error\":\"full\",\"limit\":{limit},\"which\":\"{which}\"}}")?)
        }
        Refusal::NotOneCell(object, column, count) => {
            let path = path(alloc, columns, *column)?;
            Ok(format!(in alloc;
                "{{\"cell\":[{path},{object}],\"count\":{count},\"error\":\"not one cell\"}}"
            )?)
        }
    }
}
