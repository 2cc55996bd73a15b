// Requests whose route tells which they are.
ghost use Rattle.std.specs.Prelude.{Ok, IfOk};
ghost use Rattle.serde_json.specs.View.{view};
ghost use Rattle.sheet_wire.specs.Answers.{Answers};
ghost use Rattle.sheet_wire.specs.Forms.{call_of, look_of, reads_of_view, counts};
ghost use Rattle.sheet_wire.specs.Ranges.{IsName, IsInRanges};

use crate::argument::values_in;
use crate::field::Field;
use crate::form::is_of;
use crate::line::call;
use crate::part::key_in;
use crate::refused::no_request;
use serde_json::Value as Json;
use sheet_requests::{Request, WireRefusal};
use sheet_values::{Name, NoMemory};
use std::alloc::Global;

/// A call of the procedure of that name.
pub fn call_of(alloc: Global, name: &Name, value: &Json) -> Result<Request, WireRefusal>
    ensures told { Answers result (call_of name.now (view value.now)) }
    ensures fit { IsName name.now → IfOk result IsInRanges }
{
    if !is_of(value, &[Field::Key, Field::Number, Field::With]) {
        return Err(no_request(alloc));
    }
    let name = copy_of(name)?;
    call(alloc, name, value)
}

/// A look at the view of that name.
pub fn look_of(alloc: Global, name: &Name, value: &Json) -> Result<Request, WireRefusal>
    ensures told { Answers result (look_of name.now (view value.now)) }
    ensures fit { IsName name.now → IfOk result IsInRanges }
{
    if !is_of(value, &[Field::Key, Field::With]) {
        return Err(no_request(alloc));
    }
    let name = copy_of(name)?;
    let key = key_in(alloc, value, Field::Key)?;
    let with = values_in(alloc, value)?;
    Ok(Request::See { key, name, with })
}

/// What the view of that name rests on.
pub fn reads_of(alloc: Global, name: &Name, value: &Json) -> Result<Request, WireRefusal>
    ensures told { Answers result (reads_of_view name.now (view value.now)) }
    ensures fit { IsName name.now → IfOk result IsInRanges }
{
    if !is_of(value, &[Field::Key, Field::With]) {
        return Err(no_request(alloc));
    }
    let name = copy_of(name)?;
    let key = key_in(alloc, value, Field::Key)?;
    let with = values_in(alloc, value)?;
    Ok(Request::Reads { key, name, with })
}

/// The four counts.
pub fn counts(alloc: Global, value: &Json) -> Result<Request, WireRefusal>
    ensures told { Answers result (counts (view value.now)) }
    ensures fit { IfOk result IsInRanges }
{
    if !is_of(value, &[Field::Key]) {
        return Err(no_request(alloc));
    }
    let key = key_in(alloc, value, Field::Key)?;
    Ok(Request::Stats { key })
}

fn copy_of(name: &Name) -> Result<Name, WireRefusal>
    ensures { Answers result (Ok name.now) }
{
    match name.copy() {
        Ok(name) => Ok(name),
        Err(NoMemory) => Err(WireRefusal::NoMemory),
    }
}
