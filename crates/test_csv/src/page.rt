// Pages.
use crate::words::{fault_of, name_of, shown_of, value_of};
use sheet_columns::{Fault, Names, Page, Part, Row, Rows, Sequence};
use std::alloc::Global;
use std::test::Fail;
use test_cases::word_and_text;

/// The page of some lines, each a part: `show NAME SHOWN`, `table NAME SLOT,SLOT !FAULT`, or `table NAME SLOT,SLOT ROW..`, where a
/// row is `VALUE:SHOWN:SHOWN`.
pub fn page_of(alloc: Global, lines: &[u8]) -> Result<Page, Fail> {
    let mut page = Sequence::new(alloc);
    for line in lines.split(|byte| *byte == b'\n') {
        if !line.is_empty() {
            page.push(part_of(alloc, line)?)?;
        }
    }
    Ok(page)
}

fn part_of(alloc: Global, line: &[u8]) -> Result<Part, Fail> {
    let (word, rest) = word_and_text(line);
    let (name, rest) = word_and_text(rest);
    if word == b"show".as_slice() {
        show_of(alloc, name, rest)
    } else {
        table_of(alloc, name, rest)
    }
}

fn show_of(alloc: Global, name: &[u8], word: &[u8]) -> Result<Part, Fail> {
    let name = name_of(alloc, name)?;
    let shown = shown_of(alloc, word)?;
    Ok(Part::Show { name, shown })
}

fn table_of(alloc: Global, name: &[u8], rest: &[u8]) -> Result<Part, Fail> {
    let (names, rows) = word_and_text(rest);
    let name = name_of(alloc, name)?;
    let names = names_of(alloc, names)?;
    let rows = rows_or_fault(alloc, rows)?;
    Ok(Part::Table { name, names, rows })
}

fn names_of(alloc: Global, word: &[u8]) -> Result<Names, Fail> {
    let mut names = Sequence::new(alloc);
    for name in word.split(|byte| *byte == b',') {
        names.push(name_of(alloc, name)?)?;
    }
    Ok(names)
}

fn rows_or_fault(alloc: Global, words: &[u8]) -> Result<Result<Rows, Fault>, Fail> {
    match words {
        [b'!', fault @ ..] => Ok(Err(fault_of(fault))),
        _ => {
            let rows = rows_of(alloc, words)?;
            Ok(Ok(rows))
        }
    }
}

fn rows_of(alloc: Global, words: &[u8]) -> Result<Rows, Fail> {
    let mut rows = Sequence::new(alloc);
    for word in words.split(|byte| *byte == b' ') {
        if !word.is_empty() {
            rows.push(row_of(alloc, word)?)?;
        }
    }
    Ok(rows)
}

// A row: the value that it is for, and what it shows.
fn row_of(alloc: Global, word: &[u8]) -> Result<Row, Fail> {
    let mut parts = word.split(|byte| *byte == b':');
    let of = value_of(alloc, parts.next().unwrap_or(b"0"))?;
    let mut shows = Sequence::new(alloc);
    for part in parts {
        shows.push(shown_of(alloc, part)?)?;
    }
    Ok(Row { of, shows })
}
