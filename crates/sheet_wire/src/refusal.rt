// Refusals as JSON.
ghost use Rattle.std.specs.Prelude.{◌≡◌, [], codes, IfOk};
ghost use Rattle.serde_json.specs.Data.{string, number, unsigned};
ghost use Rattle.serde_json.specs.View.{view};
ghost use Rattle.sheet_requests.specs.Bodies.{error_data, error_with, error_behind, wire_data, which_word, refusal_data};
ghost use Rattle.sheet_requests.specs.declared.reply.Refusal.TheVariants as refused;

use crate::fault::fault_json;
use crate::path::path_of;
use serde_json::{Value as Json, json};
use sheet_columns::{Columns, Fault};
use sheet_meaning::Which;
use sheet_requests::{Refusal, WireRefusal};
use sheet_values::NoMemory;
use std::alloc::Global;

/// Why no request was read.
pub fn wire_json(alloc: Global, refusal: &WireRefusal) -> Result<Json, NoMemory>
    ensures { IfOk result (λ v. view v ≡ wire_data refusal.now) }
{
    match refusal {
        WireRefusal::NotJson => error_json(alloc, "not json"),
        WireRefusal::BadShape(field) => field_json(alloc, "bad shape", field.text()),
        WireRefusal::NumberOutside(field) => field_json(alloc, "number outside", field.text()),
        WireRefusal::TextTooLong(field) => field_json(alloc, "text too long", field.text()),
        WireRefusal::LaterForm => error_json(alloc, "later form"),
        WireRefusal::NoMemory => error_json(alloc, "no memory"),
    }
}

fn error_json(alloc: Global, word: &str) -> Result<Json, NoMemory>
    ensures { IfOk result (λ v. view v ≡ error_data word.now) }
{
    Ok(json!(in alloc; {"error": word})?)
}

fn field_json(alloc: Global, word: &str, field: &str) -> Result<Json, NoMemory>
    ensures { IfOk result (λ v. view v ≡ error_with word.now (codes "field") (string field.now)) }
{
    Ok(json!(in alloc; {"error": word, "field": field})?)
}

/// Why a request isn't accepted.
pub fn refusal_json(alloc: Global, columns: &Columns, refusal: &Refusal) -> Result<Json, NoMemory>
    ensures { IfOk result (λ v. view v ≡ refusal_data columns.now refusal.now) }
{
    match refusal {
        Refusal::DiskFault => error_json(alloc, "disk fault"),
        Refusal::UnknownKey => error_json(alloc, "unknown key"),
        Refusal::NotOperator => error_json(alloc, "not operator"),
        Refusal::Past(last) => last_json(alloc, "past", *last),
        Refusal::Differs => error_json(alloc, "differs"),
        Refusal::Ahead(last) => last_json(alloc, "ahead", *last),
        Refusal::UnknownName => error_json(alloc, "unknown name"),
        Refusal::BadArgument(number) => argument_json(alloc, *number),
        Refusal::KeyTaken(caller) => taken_json(alloc, *caller, "key taken"),
        Refusal::NameTaken(caller) => taken_json(alloc, *caller, "name taken"),
        Refusal::TooMany(limit) => callers_json(alloc, *limit),
        Refusal::Denied => error_json(alloc, "denied"),
        Refusal::CheckFailed(number, message) => check_json(alloc, *number, message.text()),
        Refusal::FormulaFault(fault) => formula_json(alloc, columns, *fault),
        Refusal::Full(which, limit) => full_json(alloc, *which, *limit),
        Refusal::NotOneCell(object, column, count) => {
            cell_json(alloc, columns, *object, *column, *count)
        }
        Refusal::NoMemory => error_json(alloc, "no memory"),
    }
}

fn last_json(alloc: Global, word: &str, last: u64) -> Result<Json, NoMemory>
    ensures { IfOk result (λ v. view v ≡ error_with word.now (codes "last") (number (unsigned last))) }
{
    Ok(json!(in alloc; {"error": word, "last": last})?)
}

fn argument_json(alloc: Global, place: u32) -> Result<Json, NoMemory>
    ensures { IfOk result (λ v. view v ≡ refusal_data [] (refused.BadArgument place)) }
{
    Ok(json!(in alloc; {"argument": place, "error": "bad argument"})?)
}

fn taken_json(alloc: Global, caller: u32, word: &str) -> Result<Json, NoMemory>
    ensures { IfOk result (λ v. view v ≡ error_behind (codes "caller") (number (unsigned caller)) word.now) }
{
    Ok(json!(in alloc; {"caller": caller, "error": word})?)
}

fn callers_json(alloc: Global, limit: u32) -> Result<Json, NoMemory>
    ensures { IfOk result (λ v. view v ≡ refusal_data [] (refused.TooMany limit)) }
{
    Ok(json!(in alloc; {"error": "too many callers", "limit": limit})?)
}

fn formula_json(alloc: Global, columns: &Columns, fault: Fault) -> Result<Json, NoMemory>
    ensures { IfOk result (λ v. view v ≡ refusal_data columns.now (refused.FormulaFault fault)) }
{
    let fault = fault_json(alloc, columns, fault)?;
    fault_error(alloc, fault)
}

fn fault_error(alloc: Global, fault: Json) -> Result<Json, NoMemory>
    ensures { IfOk result (λ v. view v ≡ error_with (codes "formula fault") (codes "fault") (view fault)) }
{
    Ok(json!(in alloc; {"error": "formula fault", "fault": fault})?)
}

fn check_json(alloc: Global, number: u32, message: &str) -> Result<Json, NoMemory>
    ensures { IfOk result (λ v. view v ≡ refusal_data [] (refused.CheckFailed number message.now)) }
{
    Ok(json!(in alloc; {"error": "check failed", "message": message, "statement": number})?)
}

fn full_json(alloc: Global, which: Which, limit: u64) -> Result<Json, NoMemory>
    ensures { IfOk result (λ v. view v ≡ refusal_data [] (refused.Full which limit)) }
{
    Ok(json!(in alloc; {"error": "full", "limit": limit, "which": which_word(which)})?)
}

fn which_word(which: Which) -> &'static str
    ensures { result.now ≡ which_word which }
{
    match which {
        Which::Objects => "objects",
        Which::Cells => "cells",
        Which::Values => "values",
        Which::Numbers => "numbers",
        Which::Reply => "reply",
        Which::Requests => "requests",
    }
}

fn cell_json(
    alloc: Global,
    columns: &Columns,
    object: u64,
    column: u32,
    count: usize,
) -> Result<Json, NoMemory>
    ensures { IfOk result (λ v. view v ≡ refusal_data columns.now (refused.NotOneCell object column count)) }
{
    let path = path_of(alloc, columns, column)?;
    let cell = json!(in alloc; [path.text(), object])?;
    Ok(json!(in alloc; {"cell": cell, "count": count, "error": "not one cell"})?)
}
