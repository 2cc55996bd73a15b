// Words of steps, and results as texts.
use sheet_columns::{Columns, Fault};
use sheet_values::{Name, NoMemory, Set, Value, Values};
use std::alloc::Global;
use test_language_replies::{set_text, shown_text};

/// The number that a word stands for, or 0.
pub fn number(word: &[u8]) -> u64 {
    match str::from_utf8(word) {
        Ok(digits) => digits.parse().unwrap_or(0),
        Err(_) => 0,
    }
}

// The value that a word stands for.
fn value(alloc: Global, word: &[u8]) -> Result<Value, NoMemory> {
    if word == b"true".as_slice() {
        return Ok(Value::Truth(true));
    }
    if word == b"false".as_slice() {
        return Ok(Value::Truth(false));
    }
    if let [b'#', digits @ ..] = word {
        return Ok(Value::Object(number(digits)));
    }
    let text = str::from_utf8(word).unwrap_or("?");
    match text.parse::<i64>() {
        Ok(number) => Ok(Value::Number(number)),
        Err(_) => Ok(Value::Text(name(alloc, text)?)),
    }
}

// The name of a text, or of `?` where it is too long for one.
fn name(alloc: Global, text: &str) -> Result<Name, NoMemory> {
    Name::of(alloc, if text.len() <= 1000 { text } else { "?" })
}

/// The set of the values that some words stand for.
pub fn set_of(alloc: Global, words: &[u8]) -> Result<Set, NoMemory> {
    let mut set = Set::empty(alloc);
    for word in words.split(|byte| *byte == b' ') {
        if !word.is_empty() {
            set.insert(value(alloc, word)?)?;
        }
    }
    Ok(set)
}

/// A result, as a reply shows it.
pub fn told_result(
    alloc: Global,
    columns: &Columns,
    comes: &Result<Set, Fault>,
) -> Result<String, NoMemory> {
    match comes {
        Ok(set) => set_text(alloc, set.as_slice()),
        Err(fault) => {
            let shown: Result<Values, Fault> = Err(*fault);
            shown_text(alloc, columns, &shown)
        }
    }
}
