// What rows a file has.
use crate::parameters::parameters_of;
use sheet_csv::{CsvRefusal, LONGEST_FILE, RowList, read_rows};
use sheet_values::{Value, Values};
use std::alloc::Global;
use std::test::Fail;
use test_cases::{text_of, word_and_text};

// Longer texts are told by their length.
const LONGEST_TOLD: usize = 60;

/// A case and what it comes to; an empty line is no case. Behind its name stand the parameters, and then the file.
pub fn case(alloc: Global, line: &[u8]) -> Result<Option<String>, Fail> {
    if line.is_empty() {
        return Ok(None);
    }
    let (name, rest) = word_and_text(line);
    let (parameters, written) = word_and_text(rest);
    let told = told(alloc, parameters, written)?;
    let name = str::from_utf8(name).unwrap_or("?");
    Ok(Some(format!(in alloc; "{name} => {told}")?))
}

// What a file comes to.
fn told(alloc: Global, parameters: &[u8], written: &[u8]) -> Result<String, Fail> {
    let parameters = parameters_of(alloc, parameters)?;
    let file = text_of(alloc, written)?;
    if file.len() > LONGEST_FILE {
        return Ok(String::from_str(alloc, "too long")?);
    }
    match read_rows(alloc, &parameters, file.as_slice()) {
        Ok(rows) => rows_text(alloc, &rows),
        Err(refusal) => refusal_text(alloc, refusal),
    }
}

fn refusal_text(alloc: Global, refusal: CsvRefusal) -> Result<String, Fail> {
    let text = match refusal {
        CsvRefusal::BadHeader(field) => format!(in alloc; "bad header {field}")?,
        CsvRefusal::BadRow(row) => format!(in alloc; "bad row {row}")?,
        CsvRefusal::NoMemory => String::from_str(alloc, "no memory")?,
    };
    Ok(text)
}

fn rows_text(alloc: Global, rows: &RowList) -> Result<String, Fail> {
    let mut text = format!(in alloc; "rows={}", rows.len())?;
    for row in rows.as_slice() {
        add_row(alloc, row, &mut text)?;
    }
    Ok(text)
}

fn add_row(alloc: Global, row: &Values, text: &mut String) -> Result<(), Fail> {
    text.push_str(" [")?;
    for value in row.as_slice() {
        let told = value_text(alloc, value)?;
        text.push_str(told.as_str())?;
    }
    text.push_str(" ]")?;
    Ok(())
}

fn value_text(alloc: Global, value: &Value) -> Result<String, Fail> {
    let text = match value {
        Value::Truth(truth) => format!(in alloc; " {truth}")?,
        Value::Number(number) => format!(in alloc; " {number}")?,
        Value::Text(text) if text.bytes().len() > LONGEST_TOLD => {
            format!(in alloc; " (text of {} bytes)", text.bytes().len())?
        }
        Value::Text(text) => format!(in alloc; " {:?}", text.text())?,
        Value::Object(object) => format!(in alloc; " #{object}")?,
    };
    Ok(text)
}
