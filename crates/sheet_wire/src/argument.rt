// Arguments.
ghost use Rattle.std.specs.Prelude.{◌≡◌, All, IfOk};
ghost use Rattle.serde_json.specs.Data.{number, string};
ghost use Rattle.serde_json.specs.View.{view, items_view, number_view};
ghost use Rattle.sheet_requests.specs.Reading.{value_of, values_of, values_in};
ghost use Rattle.sheet_wire.specs.Answers.{Answers};
ghost use Rattle.sheet_wire.specs.Arguments.{fields, numbered_object, object_of};
ghost use Rattle.sheet_wire.specs.Ranges.{IsArgument};

use crate::field::Field;
use crate::part::{copied, number_from};
use crate::refused::{bad_shape, number_outside, text_too_long};
use serde_json::{Number, Value as Json};
use sheet_requests::WireRefusal;
use sheet_values::{Value, Values};
use std::alloc::Global;

/// How many bytes an argument may have that is a text.
const LONGEST_TEXT: usize = 1000;

/// The arguments in their field, in order; the first that isn't one is refused.
pub fn values_in(alloc: Global, value: &Json) -> Result<Values, WireRefusal>
    ensures told { Answers result (values_in (view value.now)) }
    ensures fit { IfOk result (All IsArgument) }
{
    match value.get(Field::With.name()).and_then(Json::as_array) {
        Some(list) => values_of(alloc, list.as_slice()),
        None => Err(bad_shape(alloc, Field::With)),
    }
}

fn values_of(alloc: Global, list: &[Json]) -> Result<Values, WireRefusal>
    ensures told { Answers result (values_of (items_view list.now)) }
    ensures fit { IfOk result (All IsArgument) }
{
    let mut values = Values::new(alloc);
    for item in list {
        let value = match value_of(alloc, item) {
            Ok(value) => value,
            Err(refusal) => return Err(refusal),
        };
        if values.push(value).is_err() {
            return Err(WireRefusal::NoMemory);
        }
    }
    Ok(values)
}

fn value_of(alloc: Global, item: &Json) -> Result<Value, WireRefusal>
    ensures told { Answers result (value_of (view item.now)) }
    ensures fit { IfOk result IsArgument }
{
    match item {
        Json::Bool(truth) => Ok(Value::Truth(*truth)),
        Json::Number(number) => integer(alloc, number),
        Json::String(text) => text_value(alloc, text.as_str()),
        Json::Object(_) => object_value(alloc, item),
        Json::Null | Json::Array(_) => Err(bad_shape(alloc, Field::With)),
    }
}

fn integer(alloc: Global, wide: &Number) -> Result<Value, WireRefusal>
    ensures told { Answers result (value_of (number (number_view wide.now))) }
    ensures fit { IfOk result IsArgument }
{
    match wide.as_i64() {
        Some(whole) => Ok(Value::Number(whole)),
        None => Err(number_outside(alloc, Field::With)),
    }
}

fn text_value(alloc: Global, text: &str) -> Result<Value, WireRefusal>
    ensures told { Answers result (value_of (string text.now)) }
    ensures fit { IfOk result IsArgument }
{
    if text.len() > LONGEST_TEXT {
        return Err(text_too_long(alloc, Field::With));
    }
    Ok(Value::Text(copied(alloc, text)?))
}

// `{"object":N}`
fn object_value(alloc: Global, item: &Json) -> Result<Value, WireRefusal>
    ensures told { Answers result (object_of (view item.now)) }
    ensures fit { IfOk result IsArgument }
{
    if field_count(item) != 1 {
        return Err(bad_shape(alloc, Field::With));
    }
    match item.get(Field::Object.name()).and_then(Json::as_number) {
        Some(number) => numbered_object(alloc, number),
        None => Err(bad_shape(alloc, Field::With)),
    }
}

fn numbered_object(alloc: Global, number: &Number) -> Result<Value, WireRefusal>
    ensures told { Answers result (numbered_object (number_view number.now)) }
    ensures fit { IfOk result IsArgument }
{
    let object = number_from(alloc, number, Field::With, 0)?;
    Ok(Value::Object(object))
}

fn field_count(item: &Json) -> usize
    ensures { result ≡ fields (view item.now) }
{
    match item.as_object() {
        Some(fields) => fields.len(),
        None => 0,
    }
}
