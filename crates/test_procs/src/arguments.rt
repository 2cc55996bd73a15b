// Values that are written as words.
use sheet_values::{Name, NoMemory, Value, Values};
use std::alloc::Global;
use test_cases::text_of;

/// The number that a word stands for, or 0.
pub fn number(word: &[u8]) -> u64 {
    match str::from_utf8(word) {
        Ok(digits) => digits.parse().unwrap_or(0),
        Err(_) => 0,
    }
}

// The text that a word stands for, in the form of the tables of cases.
fn text(alloc: Global, word: &[u8]) -> Result<Name, NoMemory> {
    let bytes = text_of(alloc, word)?;
    let text = str::from_utf8(bytes.as_slice()).unwrap_or("?");
    if text.len() > 1000 {
        return Name::of(alloc, "?");
    }
    Name::of(alloc, text)
}

// The value that a word stands for: a truth, a number, `#N` for an object, and else a text.
fn value(alloc: Global, word: &[u8]) -> Result<Value, NoMemory> {
    if word == b"true".as_slice() {
        return Ok(Value::Truth(true));
    }
    if word == b"false".as_slice() {
        return Ok(Value::Truth(false));
    }
    if let [b'#', digits @ ..] = word {
        return Ok(Value::Object(number(digits)));
    }
    match str::from_utf8(word).unwrap_or("?").parse::<i64>() {
        Ok(number) => Ok(Value::Number(number)),
        Err(_) => Ok(Value::Text(text(alloc, word)?)),
    }
}

/// The values that words stand for.
pub fn values(alloc: Global, words: &[&[u8]]) -> Result<Values, NoMemory> {
    let mut values = Values::new(alloc);
    for word in words {
        values.push(value(alloc, word)?)?;
    }
    Ok(values)
}
