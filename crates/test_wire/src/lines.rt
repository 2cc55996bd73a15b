// Lines of requests.
use crate::bodies::with_what_is_read;
use crate::printed::line_of;
use sheet_requests::Request;
use sheet_values::{Name, NoMemory, Value, Values};
use std::alloc::Global;

// Adds the line of a request, and what is read of it where that isn't the request.
fn add(alloc: Global, request: Request, out: &mut String) -> Result<(), NoMemory> {
    let line = line_of(alloc, &request)?;
    let line = with_what_is_read(alloc, line.as_str())?;
    out.push_str(line.as_str())?;
    Ok(out.push_str("\n")?)
}

/// A call of a procedure, with an argument of each type.
pub fn add_call(alloc: Global, out: &mut String) -> Result<(), NoMemory> {
    let mut with = Values::new(alloc);
    with.push(Value::Truth(true))?;
    with.push(Value::Number(-1))?;
    with.push(Value::Text(Name::of(alloc, "a\n")?))?;
    with.push(Value::Object(3))?;
    let request = Request::Do {
        key: Name::of(alloc, "op")?,
        name: Name::of(alloc, "turn")?,
        number: 1,
        with,
    };
    add(alloc, request, out)
}

/// A look at a view.
pub fn add_look(alloc: Global, out: &mut String) -> Result<(), NoMemory> {
    let (key, name) = (Name::of(alloc, "ka")?, Name::of(alloc, "mine")?);
    let with = Values::new(alloc);
    add(alloc, Request::See { key, name, with }, out)
}

/// What a view rests on.
pub fn add_reads(alloc: Global, out: &mut String) -> Result<(), NoMemory> {
    let (key, name) = (Name::of(alloc, "ka")?, Name::of(alloc, "mine")?);
    let with = Values::new(alloc);
    add(alloc, Request::Reads { key, name, with }, out)
}

/// The admission of a caller, and the counts.
pub fn add_admission(alloc: Global, out: &mut String) -> Result<(), NoMemory> {
    let request = Request::Admit {
        key: Name::of(alloc, "op")?,
        newkey: Name::of(alloc, "ka")?,
        name: Name::of(alloc, "ann")?,
        number: 4,
        object: 2,
    };
    add(alloc, request, out)?;
    let key = Name::of(alloc, "op")?;
    add(alloc, Request::Stats { key }, out)
}
