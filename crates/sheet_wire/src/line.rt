// Requests whose fields tell all.
ghost use Rattle.std.specs.Prelude.{◌≡◌, Ok, IfOk, unwrap_or, option_and_then, false};
ghost use Rattle.serde_json.specs.Find.{get, as_bool};
ghost use Rattle.serde_json.specs.View.{view};
ghost use Rattle.sheet_requests.specs.Reading.{do_of};
ghost use Rattle.sheet_wire.specs.Answers.{Answers};
ghost use Rattle.sheet_wire.specs.Fields.{field_name};
ghost use Rattle.sheet_wire.specs.Forms.{call_line, look_line, reads_line, stats_line, admission, admitted};
ghost use Rattle.sheet_wire.specs.Ranges.{IsKey, IsName, IsInRanges};

use crate::argument::values_in;
use crate::field::Field;
use crate::form::is_of;
use crate::part::{key_in, name_in, number_in};
use crate::refused::{bad_shape, no_request};
use serde_json::Value as Json;
use sheet_requests::{Request, WireRefusal};
use sheet_values::Name;
use std::alloc::Global;

/// A call of a procedure, with the procedure's name.
pub fn call_line(alloc: Global, value: &Json) -> Result<Request, WireRefusal>
    ensures told { Answers result (call_line (view value.now)) }
    ensures fit { IfOk result IsInRanges }
{
    if !is_of(value, &[Field::Do, Field::Key, Field::Number, Field::With]) {
        return Err(no_request(alloc));
    }
    let name = name_in(alloc, value, Field::Do)?;
    call(alloc, name, value)
}

/// A call of the procedure of that name.
pub fn call(alloc: Global, name: Name, value: &Json) -> Result<Request, WireRefusal>
    ensures told { Answers result (do_of (λ d. Ok name) (view value.now)) }
    ensures fit { IsName name → IfOk result IsInRanges }
{
    let key = key_in(alloc, value, Field::Key)?;
    let number = number_in(alloc, value, Field::Number, 1)?;
    let with = values_in(alloc, value)?;
    Ok(Request::Do {
        key,
        name,
        number,
        with,
    })
}

/// A look at a view, with the view's name.
pub fn look_line(alloc: Global, value: &Json) -> Result<Request, WireRefusal>
    ensures told { Answers result (look_line (view value.now)) }
    ensures fit { IfOk result IsInRanges }
{
    if !is_of(value, &[Field::See, Field::Key, Field::With]) {
        return Err(no_request(alloc));
    }
    let key = key_in(alloc, value, Field::Key)?;
    let name = name_in(alloc, value, Field::See)?;
    let with = values_in(alloc, value)?;
    Ok(Request::See { key, name, with })
}

/// What a view rests on, with the view's name.
pub fn reads_line(alloc: Global, value: &Json) -> Result<Request, WireRefusal>
    ensures told { Answers result (reads_line (view value.now)) }
    ensures fit { IfOk result IsInRanges }
{
    if !is_of(value, &[Field::Reads, Field::Key, Field::With]) {
        return Err(no_request(alloc));
    }
    let key = key_in(alloc, value, Field::Key)?;
    let name = name_in(alloc, value, Field::Reads)?;
    let with = values_in(alloc, value)?;
    Ok(Request::Reads { key, name, with })
}

/// The admission of a caller, on a line and on its own route.
pub fn admission(alloc: Global, value: &Json) -> Result<Request, WireRefusal>
    ensures told { Answers result (admission (view value.now)) }
    ensures fit { IfOk result IsInRanges }
{
    let fields = [
        Field::Admit,
        Field::Key,
        Field::Newkey,
        Field::Number,
        Field::Object,
    ];
    if !is_of(value, &fields) {
        return Err(no_request(alloc));
    }
    let name = name_in(alloc, value, Field::Admit)?;
    let key = key_in(alloc, value, Field::Key)?;
    let newkey = key_in(alloc, value, Field::Newkey)?;
    admitted(alloc, name, key, newkey, value)
}

fn admitted(
    alloc: Global,
    name: Name,
    key: Name,
    newkey: Name,
    value: &Json,
) -> Result<Request, WireRefusal>
    requires name { IsName name }
    requires key { IsKey key }
    requires newkey { IsKey newkey }
    ensures told { Answers result (admitted name key newkey (view value.now)) }
    ensures fit { IfOk result IsInRanges }
{
    let number = number_in(alloc, value, Field::Number, 1)?;
    let object = number_in(alloc, value, Field::Object, 0)?;
    Ok(Request::Admit {
        key,
        newkey,
        name,
        number,
        object,
    })
}

/// The four counts.
pub fn stats_line(alloc: Global, value: &Json) -> Result<Request, WireRefusal>
    ensures told { Answers result (stats_line (view value.now)) }
    ensures fit { IfOk result IsInRanges }
{
    if !is_of(value, &[Field::Key, Field::Stats]) {
        return Err(no_request(alloc));
    }
    let key = key_in(alloc, value, Field::Key)?;
    if !is_true(value, Field::Stats) {
        return Err(bad_shape(alloc, Field::Stats));
    }
    Ok(Request::Stats { key })
}

fn is_true(value: &Json, field: Field) -> bool
    ensures { result ≡ unwrap_or (option_and_then as_bool (get (field_name field) (view value.now))) false }
{
    value
        .get(field.name())
        .and_then(Json::as_bool)
        .unwrap_or(false)
}
