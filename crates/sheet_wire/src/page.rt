// Pages as JSON, sent part by part.
ghost use Rattle.std.specs.Prelude.{codes, OnOk};
ghost use Rattle.serde_json.specs.Events.{SendsValue};
ghost use Rattle.sheet_columns.specs.declared.page.Part.TheVariants.{Show};
ghost use Rattle.sheet_requests.specs.Bodies.{field, shown_data, list_data, row_data, rows_data, names_data, table_data, part_data};

use crate::fault::send_fault;
use crate::value::{send_value, send_values};
use serde::Serializer;
use sheet_columns::{Columns, Fault, Part, Row, Rows};
use sheet_values::{Name, Set};
use std::alloc::Global;

/// Sends a page.
pub fn send_page<S: Serializer>(
    alloc: Global,
    columns: &Columns,
    parts: &[Part],
    out: &mut S,
) -> Result<(), S::Error>
    ensures { OnOk result (SendsValue (field (codes "page") (list_data (part_data columns.now) parts.now)) (S.written out.old) (S.written out.new)) }
{
    out.begin_map(Some(1))?;
    out.key("page")?;
    send_parts(alloc, columns, parts, out)?;
    out.end_map()
}

fn send_parts<S: Serializer>(
    alloc: Global,
    columns: &Columns,
    parts: &[Part],
    out: &mut S,
) -> Result<(), S::Error>
    ensures { OnOk result (SendsValue (list_data (part_data columns.now) parts.now) (S.written out.old) (S.written out.new)) }
{
    out.begin_seq(Some(parts.len()))?;
    for part in parts {
        send_part(alloc, columns, part, out)?;
    }
    out.end_seq()
}

fn send_part<S: Serializer>(
    alloc: Global,
    columns: &Columns,
    part: &Part,
    out: &mut S,
) -> Result<(), S::Error>
    ensures { OnOk result (SendsValue (part_data columns.now part.now) (S.written out.old) (S.written out.new)) }
{
    match part {
        Part::Show { name, shown } => send_slot(alloc, columns, name, shown, out),
        Part::Table { name, names, rows } => {
            send_table(alloc, columns, name, names.as_slice(), rows, out)
        }
    }
}

fn send_slot<S: Serializer>(
    alloc: Global,
    columns: &Columns,
    name: &Name,
    shown: &Result<Set, Fault>,
    out: &mut S,
) -> Result<(), S::Error>
    ensures { OnOk result (SendsValue (part_data columns.now (Show name.now shown.now)) (S.written out.old) (S.written out.new)) }
{
    out.begin_map(Some(2))?;
    out.key("name")?;
    out.str(name.text())?;
    out.key("shows")?;
    send_shown(alloc, columns, shown, out)?;
    out.end_map()
}

fn send_table<S: Serializer>(
    alloc: Global,
    columns: &Columns,
    name: &Name,
    names: &[Name],
    rows: &Result<Rows, Fault>,
    out: &mut S,
) -> Result<(), S::Error>
    ensures { OnOk result (SendsValue (table_data name.now (names_data names.now) (rows_data columns.now rows.now)) (S.written out.old) (S.written out.new)) }
{
    out.begin_map(Some(3))?;
    out.key("name")?;
    out.str(name.text())?;
    out.key("names")?;
    send_names(names, out)?;
    out.key("table")?;
    send_rows_or_fault(alloc, columns, rows, out)?;
    out.end_map()
}

fn send_names<S: Serializer>(names: &[Name], out: &mut S) -> Result<(), S::Error>
    ensures { OnOk result (SendsValue (names_data names.now) (S.written out.old) (S.written out.new)) }
{
    out.begin_seq(Some(names.len()))?;
    for name in names {
        out.str(name.text())?;
    }
    out.end_seq()
}

fn send_rows_or_fault<S: Serializer>(
    alloc: Global,
    columns: &Columns,
    rows: &Result<Rows, Fault>,
    out: &mut S,
) -> Result<(), S::Error>
    ensures { OnOk result (SendsValue (rows_data columns.now rows.now) (S.written out.old) (S.written out.new)) }
{
    match rows {
        Ok(rows) => send_rows(alloc, columns, rows.as_slice(), out),
        Err(fault) => send_fault(alloc, columns, *fault, out),
    }
}

fn send_rows<S: Serializer>(
    alloc: Global,
    columns: &Columns,
    rows: &[Row],
    out: &mut S,
) -> Result<(), S::Error>
    ensures { OnOk result (SendsValue (list_data (row_data columns.now) rows.now) (S.written out.old) (S.written out.new)) }
{
    out.begin_seq(Some(rows.len()))?;
    for row in rows {
        send_row(alloc, columns, row, out)?;
    }
    out.end_seq()
}

fn send_row<S: Serializer>(
    alloc: Global,
    columns: &Columns,
    row: &Row,
    out: &mut S,
) -> Result<(), S::Error>
    ensures { OnOk result (SendsValue (row_data columns.now row.now) (S.written out.old) (S.written out.new)) }
{
    out.begin_map(Some(2))?;
    out.key("of")?;
    send_value(&row.of, out)?;
    out.key("shows")?;
    send_shows(alloc, columns, row.shows.as_slice(), out)?;
    out.end_map()
}

fn send_shows<S: Serializer>(
    alloc: Global,
    columns: &Columns,
    shows: &[Result<Set, Fault>],
    out: &mut S,
) -> Result<(), S::Error>
    ensures { OnOk result (SendsValue (list_data (shown_data columns.now) shows.now) (S.written out.old) (S.written out.new)) }
{
    out.begin_seq(Some(shows.len()))?;
    for shown in shows {
        send_shown(alloc, columns, shown, out)?;
    }
    out.end_seq()
}

fn send_shown<S: Serializer>(
    alloc: Global,
    columns: &Columns,
    shown: &Result<Set, Fault>,
    out: &mut S,
) -> Result<(), S::Error>
    ensures { OnOk result (SendsValue (shown_data columns.now shown.now) (S.written out.old) (S.written out.new)) }
{
    match shown {
        Ok(set) => send_values(set.as_slice(), out),
        Err(fault) => send_fault(alloc, columns, *fault, out),
    }
}
