// Requests and replies as texts.
use sheet_columns::Columns;
use sheet_requests::{Reply, Request};
use sheet_values::NoMemory;
use sheet_wire::{code_of, print_reply, print_request};
use std::alloc::Global;

/// The line of a request.
pub fn line_of(alloc: Global, request: &Request) -> Result<String, NoMemory> {
    let line = print_request(alloc, request)?;
    let line = str::from_utf8(line.as_slice()).unwrap_or("?");
    Ok(format!(in alloc; "{line}")?)
}

/// The status code of a reply, and its body.
pub fn printed(alloc: Global, columns: &Columns, reply: &Reply) -> Result<String, NoMemory> {
    let body = print_reply(alloc, columns, reply)?;
    let body = str::from_utf8(body.as_slice()).unwrap_or("?");
    Ok(format!(in alloc; "{} {body}", code_of(reply))?)
}

/// Adds a line with the status code and the body of a reply.
pub fn add(
    alloc: Global,
    columns: &Columns,
    reply: Reply,
    out: &mut String,
) -> Result<(), NoMemory> {
    let line = printed(alloc, columns, &reply)?;
    out.push_str(line.as_str())?;
    Ok(out.push_str("\n")?)
}
