// Words of pages.
use sheet_columns::{Fault, Place};
use sheet_values::{Name, NotOne, Set, Value};
use std::alloc::Global;
use std::test::Fail;
use test_cases::text_of;

/// The name or the text that a word writes.
pub fn name_of(alloc: Global, word: &[u8]) -> Result<Name, Fail> {
    let text = text_of(alloc, word)?;
    Ok(Name::read(alloc, text.as_slice())?)
}

/// The value that a word writes: truths, numbers, `#7` for objects, and other words as texts.
pub fn value_of(alloc: Global, word: &[u8]) -> Result<Value, Fail> {
    if word == b"true".as_slice() {
        return Ok(Value::Truth(true));
    }
    if word == b"false".as_slice() {
        return Ok(Value::Truth(false));
    }
    if let [b'#', digits @ ..] = word {
        let digits = str::from_utf8(digits).unwrap_or("?");
        return Ok(Value::Object(digits.parse().unwrap_or(0)));
    }
    match str::from_utf8(word).unwrap_or("?").parse::<i64>() {
        Ok(number) => Ok(Value::Number(number)),
        Err(_) => Ok(Value::Text(name_of(alloc, word)?)),
    }
}

/// What a word writes: values with bars between them, `-` for none, or a fault behind `!`.
pub fn shown_of(alloc: Global, word: &[u8]) -> Result<Result<Set, Fault>, Fail> {
    match word {
        b"-" => Ok(Ok(Set::empty(alloc))),
        [b'!', fault @ ..] => Ok(Err(fault_of(fault))),
        _ => {
            let set = set_of(alloc, word)?;
            Ok(Ok(set))
        }
    }
}

fn set_of(alloc: Global, word: &[u8]) -> Result<Set, Fail> {
    let mut set = Set::empty(alloc);
    for written in word.split(|byte| *byte == b'|') {
        set.insert(value_of(alloc, written)?)?;
    }
    Ok(set)
}

/// The fault of that letter, in whatever place.
pub fn fault_of(word: &[u8]) -> Fault {
    match word {
        b"cycle" => Fault::Cycle,
        b"none" => Fault::NotOne(NotOne::Zero, Place::Slot(3)),
        b"many" => Fault::NotOne(NotOne::Many, Place::Cell(7, 2)),
        b"overflow" => Fault::Overflow(Place::Slot(1)),
        b"divisor" => Fault::ZeroDivisor(Place::Cell(7, 2)),
        _ => Fault::TextTooLong(Place::Slot(1)),
    }
}
