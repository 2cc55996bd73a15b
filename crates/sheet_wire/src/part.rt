// Keys, names and numbers in their fields.
ghost use Rattle.std.specs.Prelude.{◌≡◌, ◌≤◌, length, Ok, IfOk};
ghost use Rattle.std.specs.List.{list_all};
ghost use Rattle.serde_json.specs.View.{view, number_view};
ghost use Rattle.sheet_requests.specs.Reading.{is_key, is_key_byte, is_name, key_in, name_in, number_from, number_in, greatest};
ghost use Rattle.sheet_wire.specs.Answers.{Answers};
ghost use Rattle.sheet_wire.specs.Fields.{field_name};
ghost use Rattle.sheet_wire.specs.Ranges.{IsKey, IsName};

use crate::field::Field;
use crate::refused::{bad_shape, number_outside};
use serde_json::{Number, Value as Json};
use sheet_requests::WireRefusal;
use sheet_values::{Name, NoMemory};
use std::alloc::Global;

/// The greatest number of a request.
const GREATEST: u64 = 9223372036854775807;

fn is_key(text: &str) -> bool
    ensures { result ≡ is_key text.now }
{
    !text.is_empty() && text.len() <= 64 && are_key_bytes(text.as_bytes())
}

fn are_key_bytes(bytes: &[u8]) -> bool
    ensures { result ≡ list_all is_key_byte bytes.now }
{
    bytes.iter().all(|byte| is_key_byte(*byte))
}

fn is_key_byte(byte: u8) -> bool
    ensures { result ≡ is_key_byte byte }
{
    0x21 <= byte && byte <= 0x7e
}

fn is_name(text: &str) -> bool
    ensures { result ≡ is_name text.now }
{
    !text.is_empty() && text.len() <= 63
}

/// A name of that text.
pub fn copied(alloc: Global, text: &str) -> Result<Name, WireRefusal>
    requires { length text.now ≤ 1000 }
    ensures { Answers result (Ok text.now) }
{
    match Name::of(alloc, text) {
        Ok(name) => Ok(name),
        Err(NoMemory) => Err(WireRefusal::NoMemory),
    }
}

/// The key in a field: a text of 1 to 64 bytes of 0x21 to 0x7E.
pub fn key_in(alloc: Global, value: &Json, field: Field) -> Result<Name, WireRefusal>
    ensures told { Answers result (key_in (field_name field) (view value.now)) }
    ensures fit { IfOk result IsKey }
{
    let Some(text) = value.get(field.name()).and_then(Json::as_str) else {
        return Err(bad_shape(alloc, field));
    };
    if !is_key(text) {
        return Err(bad_shape(alloc, field));
    }
    copied(alloc, text)
}

/// The name in a field: a text of 1 to 63 bytes.
pub fn name_in(alloc: Global, value: &Json, field: Field) -> Result<Name, WireRefusal>
    ensures told { Answers result (name_in (field_name field) (view value.now)) }
    ensures fit { IfOk result IsName }
{
    let Some(text) = value.get(field.name()).and_then(Json::as_str) else {
        return Err(bad_shape(alloc, field));
    };
    if !is_name(text) {
        return Err(bad_shape(alloc, field));
    }
    copied(alloc, text)
}

/// The number in a field: a whole one from the least on, to 9223372036854775807.
pub fn number_in(alloc: Global, value: &Json, field: Field, least: u64) -> Result<u64, WireRefusal>
    ensures told { Answers result (number_in least (field_name field) (view value.now)) }
    ensures fit { IfOk result (λ n. (least ≤ n) × (n ≤ greatest)) }
{
    match value.get(field.name()).and_then(Json::as_number) {
        Some(number) => number_from(alloc, number, field, least),
        None => Err(bad_shape(alloc, field)),
    }
}

/// A number that is told of a field: a whole one from the least on, to 9223372036854775807.
pub fn number_from(
    alloc: Global,
    number: &Number,
    field: Field,
    least: u64,
) -> Result<u64, WireRefusal>
    ensures told { Answers result (number_from least (field_name field) (number_view number.now)) }
    ensures fit { IfOk result (λ n. (least ≤ n) × (n ≤ greatest)) }
{
    match number.as_u64() {
        Some(whole) if least <= whole && whole <= GREATEST => Ok(whole),
        _ => Err(number_outside(alloc, field)),
    }
}
