// Requests as JSON.
ghost use Rattle.std.specs.Prelude.{◌≡◌, IfOk};
ghost use Rattle.serde_json.specs.View.{view};
ghost use Rattle.sheet_requests.specs.Lines.{request_data, request_line};
ghost use Rattle.sheet_requests.specs.declared.request.Request.TheVariants as request;
ghost use Rattle.sheet_wire.specs.Ranges.{IsInRanges, ReadsBack};

use crate::value::values_json;
use serde_json::{Value as Json, json};
use sheet_requests::Request;
use sheet_values::{Name, NoMemory, Values};
use std::alloc::Global;

/// The line of a request: compact JSON with the fields in the order of their bytes. Read on a line, it is an equal
/// request again, where the request is in its ranges.
pub fn print_request(alloc: Global, request: &Request) -> Result<Vec<u8>, NoMemory>
    ensures line { IfOk result (λ text. text.items ≡ request_line request.now) }
    ensures reads_back { IfOk result (λ text. IsInRanges request.now → ReadsBack text.items request.now) }
{
    let value = request_json(alloc, request)?;
    Ok(value.to_vec(alloc)?)
}

fn request_json(alloc: Global, request: &Request) -> Result<Json, NoMemory>
    ensures { IfOk result (λ v. view v ≡ request_data request.now) }
{
    match request {
        Request::Do {
            key,
            name,
            number,
            with,
        } => do_json(alloc, key, name, *number, with),
        Request::See { key, name, with } => look_json(alloc, key, name, with),
        Request::Reads { key, name, with } => reads_json(alloc, key, name, with),
        Request::Admit {
            key,
            newkey,
            name,
            number,
            object,
        } => admit_json(alloc, key, newkey, name, *number, *object),
        Request::Stats { key } => stats_json(alloc, key),
    }
}

fn do_json(
    alloc: Global,
    key: &Name,
    name: &Name,
    number: u64,
    with: &Values,
) -> Result<Json, NoMemory>
    ensures { IfOk result (λ v. view v ≡ request_data (request.Do key.now name.now number with.now)) }
{
    let with = values_json(alloc, with.as_slice())?;
    Ok(json!(in alloc; {"do": name.text(), "key": key.text(), "number": number, "with": with})?)
}

fn look_json(alloc: Global, key: &Name, name: &Name, with: &Values) -> Result<Json, NoMemory>
    ensures { IfOk result (λ v. view v ≡ request_data (request.See key.now name.now with.now)) }
{
    let with = values_json(alloc, with.as_slice())?;
    Ok(json!(in alloc; {"key": key.text(), "see": name.text(), "with": with})?)
}

fn reads_json(alloc: Global, key: &Name, name: &Name, with: &Values) -> Result<Json, NoMemory>
    ensures { IfOk result (λ v. view v ≡ request_data (request.Reads key.now name.now with.now)) }
{
    let with = values_json(alloc, with.as_slice())?;
    Ok(json!(in alloc; {"key": key.text(), "reads": name.text(), "with": with})?)
}

fn stats_json(alloc: Global, key: &Name) -> Result<Json, NoMemory>
    ensures { IfOk result (λ v. view v ≡ request_data (request.Stats key.now)) }
{
    Ok(json!(in alloc; {"key": key.text(), "stats": true})?)
}

fn admit_json(
    alloc: Global,
    key: &Name,
    newkey: &Name,
    name: &Name,
    number: u64,
    object: u64,
) -> Result<Json, NoMemory>
    ensures { IfOk result (λ v. view v ≡ request_data (request.Admit key.now newkey.now name.now number object)) }
{
    Ok(
        json!(in alloc; {"admit": name.text(), "key": key.text(), "newkey": newkey.text(), "number": number, "object": object})?,
    )
}
