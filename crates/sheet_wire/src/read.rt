// Text to requests.
ghost use Rattle.std.specs.Prelude.{◌≡◌, IfOk};
ghost use Rattle.serde_json.specs.View.{view};
ghost use Rattle.sheet_requests.specs.Reading.{ReadsAs, line_of, asked_of, served, request_of};
ghost use Rattle.sheet_wire.specs.Answers.{Answers};
ghost use Rattle.sheet_wire.specs.Ranges.{IsNamed, IsInRanges};

use crate::field::Field;
use crate::form::count_forms;
use crate::line::{admission, call_line, look_line, reads_line, stats_line};
use crate::refused::no_request;
use crate::routed::{call_of, counts, look_of, reads_of};
use serde_json::Value as Json;
use sheet_requests::{Request, Route, WireRefusal};
use std::alloc::Global;

/// The request that the bytes hold, on that route. It is in its ranges where the route's name has 1 to 63 bytes.
///
/// The refusals, in order: `NotJson` where `serde_json` reads no value from the bytes; `BadShape` without a field where
/// the value is no object, has another field than the request, or, of a line, hasn't exactly one of `do`, `see`,
/// `reads`, `admit` and `stats`; then of the first field, in the order of their bytes, that isn't right: `BadShape`
/// where it is missing or isn't of its kind, `NumberOutside` where its number is no whole one or out of its range, and
/// `TextTooLong` where an argument has more than 1,000 bytes. `LaterForm` comes where it asks for the items that a view
/// rests on.
pub fn read_request(alloc: Global, route: &Route, bytes: &[u8]) -> Result<Request, WireRefusal>
    ensures reads { ReadsAs route.now bytes.now result }
    ensures ranges { IsNamed route.now → IfOk result IsInRanges }
{
    match Json::from_slice(alloc, bytes) {
        Ok(value) => request_in(alloc, route, &value),
        Err(error) => {
            if error.is_memory() {
                return Err(WireRefusal::NoMemory);
            }
            Err(WireRefusal::NotJson)
        }
    }
}

fn request_in(alloc: Global, route: &Route, value: &Json) -> Result<Request, WireRefusal>
    ensures told { Answers result (request_of route.now (view value.now)) }
    ensures fit { IsNamed route.now → IfOk result IsInRanges }
{
    let request = asked_in(alloc, route, value)?;
    served(request)
}

fn asked_in(alloc: Global, route: &Route, value: &Json) -> Result<Request, WireRefusal>
    ensures told { Answers result (asked_of route.now (view value.now)) }
    ensures fit { IsNamed route.now → IfOk result IsInRanges }
{
    match route {
        Route::Line => line_in(alloc, value),
        Route::Do(name) => call_of(alloc, name, value),
        Route::See(name) => look_of(alloc, name, value),
        Route::Reads(name) => reads_of(alloc, name, value),
        Route::Admit => admission(alloc, value),
        Route::Stats => counts(alloc, value),
    }
}

fn line_in(alloc: Global, value: &Json) -> Result<Request, WireRefusal>
    ensures told { Answers result (line_of (view value.now)) }
    ensures fit { IfOk result IsInRanges }
{
    if count_forms(value) != 1 {
        return Err(no_request(alloc));
    }
    if Field::Do.is_in(value) {
        call_line(alloc, value)
    } else if Field::See.is_in(value) {
        look_line(alloc, value)
    } else if Field::Reads.is_in(value) {
        reads_line(alloc, value)
    } else if Field::Admit.is_in(value) {
        admission(alloc, value)
    } else {
        stats_line(alloc, value)
    }
}

// The items that a view rests on aren't told yet.
fn served(request: Request) -> Result<Request, WireRefusal>
    ensures { result ≡ served request }
{
    match request {
        Request::Reads { .. } => Err(WireRefusal::LaterForm),
        request => Ok(request),
    }
}
