// Cases: a line `== NAME`, then lines of a word and a text. `file BYTES` is what the file holds at the start, without it there is
// none; `fails N ..` are the calls that fail; `images N` asks what is read after a crash behind each of the first N calls, and
// `each N` for that too where each of these calls fails in turn; `image N FILL` asks for the bytes of one image.

use sheet_values::NoMemory;
use std::alloc::Global;
use test_cases::text_of;

/// The text behind the first line of this word.
pub(crate) fn value_of<'a>(case: &'a str, word: &str) -> Option<&'a str> {
    for line in case.lines() {
        match line.split_once(' ') {
            Some((first, text)) if first == word => return Some(text),
            _ => {}
        }
    }
    None
}

/// The bytes that the file holds at the start, where there is one.
pub(crate) fn file_of(alloc: Global, case: &str) -> Result<Option<Vec<u8>>, NoMemory> {
    match value_of(case, "file") {
        Some(text) => Ok(Some(text_of(alloc, text.as_bytes())?)),
        None => Ok(None),
    }
}

/// The calls that fail.
pub(crate) fn fails_of(alloc: Global, case: &str) -> Result<Vec<u64>, NoMemory> {
    let mut fails = Vec::new(alloc);
    if let Some(text) = value_of(case, "fails") {
        for number in text.split(' ') {
            fails.push(number.parse().unwrap_or(0))?;
        }
    }
    Ok(fails)
}

/// The number behind this word, or 0.
pub(crate) fn count_of(case: &str, word: &str) -> u64 {
    match value_of(case, word) {
        Some(text) => text.parse().unwrap_or(0),
        None => 0,
    }
}
