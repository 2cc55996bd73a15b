// Lines of CSV.
ghost use Rattle.std.specs.Prelude.{◌≡◌, ◌++◌, map, IfOk, OnOk};
ghost use Rattle.csv.specs.Writing.{default_writer, row_text};
ghost use Rattle.sheet_csv.specs.Pages.{line_text};

use csv::{Error, WriterBuilder};
use sheet_values::NoMemory;
use std::alloc::Global;

// The line of a record, with the crate's error.
fn written(alloc: Global, fields: &[&[u8]]) -> Result<Vec<u8>, Error>
    ensures { IfOk result (λ text. text.items ≡ row_text default_writer (map (λ f. f.now) fields.now)) }
{
    let mut writer = WriterBuilder::new().from_writer(Vec::new(alloc));
    writer.write_fields(fields)?;
    match writer.into_inner() {
        Ok(text) => Ok(text),
        Err(stop) => Err(stop.into_error()),
    }
}

// Only want of memory is refused: the line is written to memory.
fn line_of(alloc: Global, fields: &[&[u8]]) -> Result<Vec<u8>, NoMemory>
    ensures { IfOk result (λ text. text.items ≡ row_text default_writer (map (λ f. f.now) fields.now)) }
{
    match written(alloc, fields) {
        Ok(text) => Ok(text),
        Err(_) => Err(NoMemory),
    }
}

/// Adds the line of a record at the end of a text.
pub fn add_line(
    alloc: Global,
    out: &mut Vec<u8>,
    part: &[u8],
    row: &[u8],
    name: &[u8],
    kind: &[u8],
    value: &[u8],
) -> Result<(), NoMemory>
    ensures { OnOk result (out.new.items ≡ out.old.items ++ line_text part.now row.now name.now kind.now value.now) }
{
    let line = line_of(alloc, &[part, row, name, kind, value])?;
    out.extend_from_slice(line.as_slice())?;
    Ok(())
}
