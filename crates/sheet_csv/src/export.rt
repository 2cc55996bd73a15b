// The page of a view as CSV.
ghost use Rattle.std.specs.Prelude.{◌≡◌, ◌≤◌, ◌++◌, IfOk, IsErrOf, OnOk, OnErr, flat_map};
ghost use Rattle.sheet_lines.specs.Told.{GainsFront};
ghost use Rattle.sheet_outside.specs.Causes.{Rose};
ghost use Rattle.sheet_outside.specs.Told.{Gains, WhereTold};
ghost use Rattle.sheet_csv.specs.Pages.{fault_line, header_line, page_text as text_of_page, part_lines, row_lines, shown_lines, slot_lines, table_lines, value_line, value_text as text_of_value};

use crate::lines::add_line;
use crate::words::{fault_word, kind_word, truth_word};
use itoa::Buffer;
use sheet_columns::{Fault, Page, Part, Row, Rows};
use sheet_lines::write_all;
use sheet_outside::{Sink, WriteRefusal};
use sheet_values::{Name, NoMemory, Set, Value};
use std::alloc::Global;

// The text of a value.
fn value_text(alloc: Global, value: &Value) -> Result<Vec<u8>, NoMemory>
    ensures { IfOk result (λ text. text.items ≡ text_of_value value.now) }
{
    let mut buffer = Buffer::new();
    let text = match value {
        Value::Truth(truth) => truth_word(*truth),
        Value::Number(number) => buffer.format(*number).as_bytes(),
        Value::Text(text) => text.bytes(),
        Value::Object(object) => buffer.format(*object).as_bytes(),
    };
    let copy = Vec::from_slice(alloc, text)?;
    Ok(copy)
}

// The line of one value.
fn add_value(
    alloc: Global,
    out: &mut Vec<u8>,
    part: &[u8],
    row: &[u8],
    name: &[u8],
    value: &Value,
) -> Result<(), NoMemory>
    ensures { OnOk result (out.new.items ≡ out.old.items ++ value_line part.now row.now name.now value.now) }
{
    let text = value_text(alloc, value)?;
    add_line(
        alloc,
        out,
        part,
        row,
        name,
        kind_word(value),
        text.as_slice(),
    )
}

// The line of a fault.
fn add_fault(
    alloc: Global,
    out: &mut Vec<u8>,
    part: &[u8],
    row: &[u8],
    name: &[u8],
    fault: &Fault,
) -> Result<(), NoMemory>
    ensures { OnOk result (out.new.items ≡ out.old.items ++ fault_line part.now row.now name.now fault.now) }
{
    add_line(alloc, out, part, row, name, b"fault", fault_word(fault))
}

// A line for each value that is shown, or one for the fault.
fn add_shown(
    alloc: Global,
    out: &mut Vec<u8>,
    part: &[u8],
    row: &[u8],
    name: &[u8],
    shown: &Result<Set, Fault>,
) -> Result<(), NoMemory>
    ensures { OnOk result (out.new.items ≡ out.old.items ++ shown_lines part.now row.now name.now shown.now) }
{
    match shown {
        Ok(set) => add_values(alloc, out, part, row, name, set.as_slice()),
        Err(fault) => add_fault(alloc, out, part, row, name, fault),
    }
}

fn add_values(
    alloc: Global,
    out: &mut Vec<u8>,
    part: &[u8],
    row: &[u8],
    name: &[u8],
    values: &[Value],
) -> Result<(), NoMemory>
    ensures { OnOk result (out.new.items ≡ out.old.items ++ flat_map (value_line part.now row.now name.now) values.now) }
{
    for value in values {
        add_value(alloc, out, part, row, name, value)?;
    }
    Ok(())
}

// What a row shows in each slot.
fn add_slots(
    alloc: Global,
    out: &mut Vec<u8>,
    part: &[u8],
    row: &[u8],
    names: &[Name],
    shows: &[Result<Set, Fault>],
) -> Result<(), NoMemory>
    ensures { OnOk result (out.new.items ≡ out.old.items ++ slot_lines part.now row.now names.now shows.now) }
{
    let mut names = names;
    let mut shows = shows;
    while let (Some((name, others)), Some((shown, more))) = (
        names.split_first(),
        shows.split_first(),
    ) {
        add_shown(alloc, out, part, row, name.bytes(), shown)?;
        names = others;
        shows = more;
    }
    Ok(())
}

// The lines of a row.
fn add_row(
    alloc: Global,
    out: &mut Vec<u8>,
    part: &[u8],
    names: &[Name],
    row: &Row,
) -> Result<(), NoMemory>
    ensures { OnOk result (out.new.items ≡ out.old.items ++ row_lines part.now names.now row.now) }
{
    let text = value_text(alloc, &row.of)?;
    add_slots(
        alloc,
        out,
        part,
        text.as_slice(),
        names,
        row.shows.as_slice(),
    )
}

fn add_rows(
    alloc: Global,
    out: &mut Vec<u8>,
    part: &[u8],
    names: &[Name],
    rows: &[Row],
) -> Result<(), NoMemory>
    ensures { OnOk result (out.new.items ≡ out.old.items ++ flat_map (row_lines part.now names.now) rows.now) }
{
    for row in rows {
        add_row(alloc, out, part, names, row)?;
    }
    Ok(())
}

// The rows of a table, or one line for the fault.
fn add_table(
    alloc: Global,
    out: &mut Vec<u8>,
    part: &[u8],
    names: &[Name],
    rows: &Result<Rows, Fault>,
) -> Result<(), NoMemory>
    ensures { OnOk result (out.new.items ≡ out.old.items ++ table_lines part.now names.now rows.now) }
{
    match rows {
        Ok(rows) => add_rows(alloc, out, part, names, rows.as_slice()),
        Err(fault) => add_fault(alloc, out, part, b"", b"", fault),
    }
}

// The lines of a part.
fn add_part(alloc: Global, out: &mut Vec<u8>, part: &Part) -> Result<(), NoMemory>
    ensures { OnOk result (out.new.items ≡ out.old.items ++ part_lines part.now) }
{
    match part {
        Part::Show { name, shown } => add_shown(alloc, out, name.bytes(), b"", b"", shown),
        Part::Table { name, names, rows } => add_table(
            alloc,
            out,
            name.bytes(),
            names.as_slice(),
            rows,
        ),
    }
}

fn add_header(alloc: Global, out: &mut Vec<u8>) -> Result<(), NoMemory>
    ensures { OnOk result (out.new.items ≡ out.old.items ++ header_line) }
{
    add_line(alloc, out, b"part", b"row", b"name", b"kind", b"value")
}

// The text of a page.
fn page_text(alloc: Global, page: &[Part]) -> Result<Vec<u8>, NoMemory>
    ensures { IfOk result (λ text. text.items ≡ text_of_page page.now) }
{
    let mut out = Vec::new(alloc);
    add_header(alloc, &mut out)?;
    for part in page {
        add_part(alloc, &mut out, part)?;
    }
    Ok(out)
}

/// Writes the page as CSV: a header, and then a line for each value that is shown, in the order of parts, rows, slots
/// and values. A fault has one line.
///
/// `WriteFault` comes only where the sink failed. After a refusal a front of the text is written.
pub fn export_page<K: Sink>(alloc: Global, page: &Page, sink: &mut K) -> Result<(), WriteRefusal>
    ensures ok { OnOk result (Gains (K.written sink.old) (K.written sink.new) (text_of_page page.now)) }
    ensures err { OnErr result (WhereTold (GainsFront (text_of_page page.now)) (K.written sink.old) (K.written sink.new)) }
    ensures fault { IsErrOf result WriteRefusal.WriteFault → Rose (K.faults sink.old) (K.faults sink.new) }
    ensures later { K.faults sink.old ≤ K.faults sink.new }
{
    let text = match page_text(alloc, page.as_slice()) {
        Ok(text) => text,
        Err(_) => return Err(WriteRefusal::NoMemory),
    };
    match write_all(sink, text.as_slice()) {
        Ok(()) => Ok(()),
        Err(_) => Err(WriteRefusal::WriteFault),
    }
}
