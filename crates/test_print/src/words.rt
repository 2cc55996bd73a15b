// The words of steps.
use sheet_values::{Name, NameRefusal, NoMemory, Set, Value};
use std::alloc::Global;
use test_cases::text_of;

/// The number that a word stands for, or 0.
pub fn number(word: &[u8]) -> u64 {
    match str::from_utf8(word) {
        Ok(digits) => digits.parse().unwrap_or(0),
        Err(_) => 0,
    }
}

// The value that a word stands for.
fn value(alloc: Global, word: &[u8]) -> Result<Value, NoMemory> {
    if word == b"true".as_slice() {
        return Ok(Value::Truth(true));
    }
    if word == b"false".as_slice() {
        return Ok(Value::Truth(false));
    }
    if let [b'#', digits @ ..] = word {
        return Ok(Value::Object(number(digits)));
    }
    match str::from_utf8(word).unwrap_or("?").parse::<i64>() {
        Ok(number) => Ok(Value::Number(number)),
        Err(_) => Ok(Value::Text(name(alloc, word)?)),
    }
}

// The text that a word stands for; `?` where it is none.
fn name(alloc: Global, word: &[u8]) -> Result<Name, NoMemory> {
    let text = text_of(alloc, word)?;
    match Name::read(alloc, text.as_slice()) {
        Ok(name) => Ok(name),
        Err(NameRefusal::NoMemory) => Err(NoMemory),
        Err(_) => Name::of(alloc, "?"),
    }
}

/// The set of the values that some words stand for.
pub fn set_of(alloc: Global, words: &[u8]) -> Result<Set, NoMemory> {
    let mut set = Set::empty(alloc);
    for word in words.split(|byte| *byte == b' ') {
        if !word.is_empty() {
            set.insert(value(alloc, word)?)?;
        }
    }
    Ok(set)
}
