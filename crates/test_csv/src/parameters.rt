// Parameters.
use sheet_columns::{Parameters, Sequence};
use sheet_values::{Kind, Name};
use std::alloc::Global;
use std::test::Fail;

/// The parameters that a word writes as `name:type,name:type`. A word without a colon writes none.
pub fn parameters_of(alloc: Global, word: &[u8]) -> Result<Parameters, Fail> {
    let mut parameters = Sequence::new(alloc);
    for written in word.split(|byte| *byte == b',') {
        let mut parts = written.split(|byte| *byte == b':');
        if let (Some(name), Some(kind)) = (parts.next(), parts.next()) {
            parameters.push((Name::read(alloc, name)?, kind_of(kind)))?;
        }
    }
    Ok(parameters)
}

// The type of that name.
fn kind_of(word: &[u8]) -> Kind {
    if word == b"truth".as_slice() {
        Kind::Truth
    } else if word == b"number".as_slice() {
        Kind::Number
    } else if word == b"text".as_slice() {
        Kind::Text
    } else if word == b"object".as_slice() {
        Kind::Object(1)
    } else {
        Kind::Unknown
    }
}
