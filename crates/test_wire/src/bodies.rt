// What bodies say, by the route that they come on.
use crate::printed::{line_of, printed};
use sheet_columns::Columns;
use sheet_requests::{Reply, Route};
use sheet_values::{Name, NoMemory};
use sheet_wire::read_request;
use std::alloc::Global;
use test_cases::{text_of, word_and_text};

/// A case, its route and its body, with the line of the request that the body stands for, or the status code and the
/// body of the refusal.
pub fn told(alloc: Global, case: &[u8]) -> Result<String, NoMemory> {
    let (word, written) = word_and_text(case);
    let body = text_of(alloc, written)?;
    let outcome = match route_of(alloc, word)? {
        Some(route) => outcome(alloc, &route, body.as_slice())?,
        None => format!(in alloc; "no route")?,
    };
    let case = str::from_utf8(case).unwrap_or("?");
    Ok(format!(in alloc; "{case} => {outcome}")?)
}

fn route_of(alloc: Global, word: &[u8]) -> Result<Option<Route>, NoMemory> {
    match word {
        b"line" => Ok(Some(Route::Line)),
        b"do" => Ok(Some(Route::Do(Name::of(alloc, "join")?))),
        b"see" => Ok(Some(Route::See(Name::of(alloc, "mine")?))),
        b"reads" => Ok(Some(Route::Reads(Name::of(alloc, "mine")?))),
        b"admit" => Ok(Some(Route::Admit)),
        b"stats" => Ok(Some(Route::Stats)),
        _ => Ok(None),
    }
}

// What a body stands for; where that is a request whose line stands for something else, that too.
fn outcome(alloc: Global, route: &Route, body: &[u8]) -> Result<String, NoMemory> {
    let outcome = read(alloc, route, body)?;
    if !outcome.as_str().starts_with("{") {
        return Ok(outcome);
    }
    with_what_is_read(alloc, outcome.as_str())
}

/// A line, and what is read of it where that isn't the request of the same line.
pub fn with_what_is_read(alloc: Global, line: &str) -> Result<String, NoMemory> {
    let again = read(alloc, &Route::Line, line.as_bytes())?;
    if again.as_str() == line {
        return Ok(again);
    }
    Ok(format!(in alloc; "{line} is read as {again}")?)
}

// The line of the request that is read, or the status code and the body of the refusal.
fn read(alloc: Global, route: &Route, body: &[u8]) -> Result<String, NoMemory> {
    match read_request(alloc, route, body) {
        Ok(request) => line_of(alloc, &request),
        Err(refusal) => printed(alloc, &Columns::new(alloc)?, &Reply::Wire(refusal)),
    }
}
