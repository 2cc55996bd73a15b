// Values as JSON.
ghost use Rattle.std.specs.Prelude.{◌≡◌, codes, IfOk, OnOk};
ghost use Rattle.serde_json.specs.Events.{SendsValue};
ghost use Rattle.serde_json.specs.View.{view};
ghost use Rattle.serde_json.specs.Data.{number, unsigned};
ghost use Rattle.sheet_requests.specs.Bodies.{field, value_data, values_data};

use serde::{Serialize, Serializer};
use serde_json::{Number, Value as Json, json};
use sheet_values::{NoMemory, Value};
use std::alloc::Global;

/// Values in their order, as an array.
pub fn values_json(alloc: Global, values: &[Value]) -> Result<Json, NoMemory>
    ensures { IfOk result (λ v. view v ≡ values_data values.now) }
{
    let mut list = Vec::new(alloc);
    for value in values {
        list.push(value_json(alloc, value)?)?;
    }
    Ok(Json::Array(list))
}

/// A value.
pub fn value_json(alloc: Global, value: &Value) -> Result<Json, NoMemory>
    ensures { IfOk result (λ v. view v ≡ value_data value.now) }
{
    match value {
        Value::Truth(truth) => Ok(Json::Bool(*truth)),
        Value::Number(number) => Ok(Json::from(*number)),
        Value::Text(text) => Ok(Json::try_from_str(alloc, text.text())?),
        Value::Object(object) => Ok(json!(in alloc; {"object": *object})?),
    }
}

/// Sends values in their order, as an array.
pub fn send_values<S: Serializer>(values: &[Value], out: &mut S) -> Result<(), S::Error>
    ensures { OnOk result (SendsValue (values_data values.now) (S.written out.old) (S.written out.new)) }
{
    out.begin_seq(Some(values.len()))?;
    for value in values {
        send_value(value, out)?;
    }
    out.end_seq()
}

/// Sends a value.
pub fn send_value<S: Serializer>(value: &Value, out: &mut S) -> Result<(), S::Error>
    ensures { OnOk result (SendsValue (value_data value.now) (S.written out.old) (S.written out.new)) }
{
    match value {
        Value::Truth(truth) => out.bool(*truth),
        Value::Number(number) => Number::from(*number).serialize(out),
        Value::Text(text) => out.str(text.text()),
        Value::Object(object) => send_object(*object, out),
    }
}

fn send_object<S: Serializer>(object: u64, out: &mut S) -> Result<(), S::Error>
    ensures { OnOk result (SendsValue (field (codes "object") (number (unsigned object))) (S.written out.old) (S.written out.new)) }
{
    out.begin_map(Some(1))?;
    out.key("object")?;
    out.u64(object)?;
    out.end_map()
}
