// The rows of a file.
ghost use Rattle.std.specs.Prelude.{◌≡◌, [], ◌∷◌, get_or, ◌+◌, ◌<◌, ◌≤◌, ℕ, map, length, IfOk, Some};
ghost use Rattle.csv.specs.Reading.{strip_bom};
ghost use Rattle.csv.specs.Records.{fields_of};
ghost use Rattle.csv.specs.declared.parser.State.TheVariants as st;
ghost use Rattle.sheet_csv.specs.Readers.{left_of, records_of, state_of, IsReading, Steps};
ghost use Rattle.sheet_csv.specs.Turns.{AddsRow};
ghost use Rattle.sheet_csv.specs.Rows.{Answers, arguments, row_of, rows_from, rows_in, rows_of, slot_value};

use crate::field::read_field;
use crate::header::{Slot, judge_header};
use crate::refusal::CsvRefusal;
use csv::{ByteRecord, ByteRecordsIntoIter, ReaderBuilder};
use sheet_columns::{Parameters, Sequence};
use sheet_values::{Kind, Name, NoMemory, Value, Values};
use std::alloc::Global;

/// The greatest length of a CSV file, in bytes.
pub const LONGEST_FILE: usize = 16_777_216;

/// The rows of a file, each as a list of arguments.
pub type RowList = Sequence<Values>;

fn field_at(row: &ByteRecord, k: usize) -> &[u8]
    requires { k < length (fields_of row.now) }
    ensures { get_or (fields_of row.now) k [] ≡ result.now }
{
    match row.get(k) {
        Some(field) => field,
        None => unreachable!(),
    }
}

// The fields of a record.
fn fields_in<'r>(alloc: Global, row: &'r ByteRecord) -> Result<Vec<&'r [u8]>, NoMemory>
    ensures { IfOk result (λ fields. map (λ f. f.now) fields.items ≡ fields_of row.now) }
{
    let mut fields = Vec::new(alloc);
    for k in 0..row.len() {
        fields.push(field_at(row, k))?;
    }
    Ok(fields)
}

// The value of the field of a parameter. None where it isn't read.
fn read_slot(alloc: Global, slot: Slot, row: &ByteRecord) -> Result<Option<Value>, NoMemory>
    ensures { IfOk result (λ value. value ≡ slot_value (fields_of row.now) slot) }
{
    match row.get(slot.place) {
        Some(field) => read_field(alloc, slot.kind, field),
        None => Ok(None),
    }
}

// The arguments of a record. None where some field isn't read.
fn read_arguments(
    alloc: Global,
    slots: &[Slot],
    row: &ByteRecord,
) -> Result<Option<Values>, NoMemory>
    ensures { IfOk result (λ values. values ≡ arguments slots.now (fields_of row.now)) }
{
    let mut values = Values::new(alloc);
    let mut rest = slots;
    while let Some((slot, more)) = rest.split_first() {
        match read_slot(alloc, *slot, row)? {
            Some(value) => values.push(value)?,
            None => return Ok(None),
        }
        rest = more;
    }
    Ok(Some(values))
}

// The same, where there are as many fields as in the header.
fn read_row(
    alloc: Global,
    slots: &[Slot],
    width: usize,
    row: &ByteRecord,
) -> Result<Option<Values>, NoMemory>
    ensures { IfOk result (λ values. values ≡ row_of slots.now width (fields_of row.now)) }
{
    if row.len() != width {
        return Ok(None);
    }
    read_arguments(alloc, slots, row)
}

// The records of a file, of any lengths.
fn records_in(alloc: Global, bytes: &[u8]) -> ByteRecordsIntoIter<&[u8]>
    ensures reading { IsReading result }
    ensures state { state_of result ≡ st.StartRecord }
    ensures left { left_of result ≡ strip_bom bytes.now }
{
    ReaderBuilder::new()
        .has_headers(false)
        .flexible(true)
        .from_reader(alloc, bytes)
        .into_byte_records()
}

// The next record, if there is one. Only want of memory is refused: the bytes are at hand, and records may differ in length.
fn next_record(records: &mut ByteRecordsIntoIter<&[u8]>) -> Result<Option<ByteRecord>, NoMemory>
    requires { IsReading records.old }
    ensures { IfOk result (Steps records.old records.new) }
{
    match records.next() {
        None => Ok(None),
        Some(Ok(record)) => Ok(Some(record)),
        Some(Err(_)) => Err(NoMemory),
    }
}

// Adds the row of a record.
fn add_row(
    alloc: Global,
    slots: &[Slot],
    width: usize,
    row: &ByteRecord,
    rows: &mut RowList,
) -> Result<(), CsvRefusal>
    requires { length rows.old ≤ 16777216 }
    ensures { AddsRow (row_of slots.now width (fields_of row.now)) rows.old rows.new result }
{
    match read_row(alloc, slots, width, row)? {
        Some(values) => {
            rows.push(values)?;
            Ok(())
        }
        None => Err(CsvRefusal::BadRow(rows.len() as u32 + 1)),
    }
}

// The rows of the records that are left.
fn read_records(
    alloc: Global,
    slots: &[Slot],
    width: usize,
    records: &mut ByteRecordsIntoIter<&[u8]>,
) -> Result<RowList, CsvRefusal>
    requires reading { IsReading records.old }
    requires short { length (left_of records.old) ≤ 16777216 }
    ensures { (n : ℕ) → length (left_of records.old) < n → Answers result (rows_from slots.now width 1 (records_of n records.old)) }
{
    let mut rows = Sequence::new(alloc);
    'turns: while let Some(row) = next_record(records)? {
        match add_row(alloc, slots, width, &row, &mut rows) {
            Ok(()) => {}
            Err(refusal) => return Err(refusal),
        }
    }
    Ok(rows)
}

// The rows behind a header.
fn read_behind(
    alloc: Global,
    parameters: &[(Name, Kind)],
    header: &ByteRecord,
    records: &mut ByteRecordsIntoIter<&[u8]>,
) -> Result<RowList, CsvRefusal>
    requires reading { IsReading records.old }
    requires few { length (fields_of header.now) ≤ 16777217 }
    requires short { length (left_of records.old) ≤ 16777216 }
    ensures { (n : ℕ) → length (left_of records.old) < n → Answers result (rows_of parameters.now (fields_of header.now ∷ records_of n records.old)) }
{
    let fields = fields_in(alloc, header)?;
    match judge_header(alloc, parameters, fields.as_slice()) {
        Ok(slots) => read_records(alloc, slots.as_slice(), header.len(), records),
        Err(refusal) => Err(refusal),
    }
}

/// The rows of a CSV file of at most `LONGEST_FILE` bytes, each as a list of arguments in the order of the parameters.
/// The first record names the parameters, in any order.
///
/// `BadHeader` with the first field of the header, from 1, that names no parameter, or one that an earlier field names.
/// Where a parameter is missing it is the count of fields plus 1, and in a file without a record 1. Then `BadRow` with
/// the first record behind the header, from 1, that has another count of fields, or a field that isn't read by its
/// parameter's type.
pub fn read_rows(
    alloc: Global,
    parameters: &Parameters,
    bytes: &[u8],
) -> Result<RowList, CsvRefusal>
    requires { length bytes.now ≤ 16777216 }
    ensures { Answers result (rows_in parameters.now bytes.now) }
{
    let mut records = records_in(alloc, bytes);
    match next_record(&mut records)? {
        None => Err(CsvRefusal::BadHeader(1)),
        Some(header) => read_behind(alloc, parameters.as_slice(), &header, &mut records),
    }
}
