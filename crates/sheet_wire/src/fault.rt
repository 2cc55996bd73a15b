// Faults as JSON.
ghost use Rattle.std.specs.Prelude.{◌≡◌, IfOk, OnOk};
ghost use Rattle.serde_json.specs.Events.{SendsValue};
ghost use Rattle.serde_json.specs.View.{view};
ghost use Rattle.sheet_requests.specs.Bodies.{place_data, placed_fault, not_one_fault, found_word, fault_data};

use crate::path::path_of;
use serde::{Serialize, Serializer};
use serde_json::{Value as Json, json};
use sheet_columns::{Columns, Fault, Place};
use sheet_values::{NoMemory, NotOne};
use std::alloc::Global;

/// A fault with its place; a cycle has none.
pub fn fault_json(alloc: Global, columns: &Columns, fault: Fault) -> Result<Json, NoMemory>
    ensures { IfOk result (λ v. view v ≡ fault_data columns.now fault) }
{
    match fault {
        Fault::Cycle => Ok(json!(in alloc; {"fault": "cycle"})?),
        Fault::NotOne(found, place) => {
            let place = place_json(alloc, columns, place)?;
            not_one_fault(alloc, found_word(found), place)
        }
        Fault::Overflow(place) => placed_fault(
            alloc,
            "overflow",
            place_json(alloc, columns, place)?,
        ),
        Fault::ZeroDivisor(place) => placed_fault(
            alloc,
            "zero divisor",
            place_json(alloc, columns, place)?,
        ),
        Fault::TextTooLong(place) => placed_fault(
            alloc,
            "text too long",
            place_json(alloc, columns, place)?,
        ),
    }
}

/// Sends a fault with its place. It fails for want of memory too.
pub fn send_fault<S: Serializer>(
    alloc: Global,
    columns: &Columns,
    fault: Fault,
    out: &mut S,
) -> Result<(), S::Error>
    ensures { OnOk result (SendsValue (fault_data columns.now fault) (S.written out.old) (S.written out.new)) }
{
    match fault_json(alloc, columns, fault) {
        Ok(fault) => fault.serialize(out),
        Err(NoMemory) => Err(out.custom("no memory")),
    }
}

fn placed_fault(alloc: Global, word: &str, place: Json) -> Result<Json, NoMemory>
    ensures { IfOk result (λ v. view v ≡ placed_fault word.now (view place)) }
{
    Ok(json!(in alloc; {"fault": word, "place": place})?)
}

fn not_one_fault(alloc: Global, found: &str, place: Json) -> Result<Json, NoMemory>
    ensures { IfOk result (λ v. view v ≡ not_one_fault found.now (view place)) }
{
    Ok(json!(in alloc; {"fault": "not one", "found": found, "place": place})?)
}

fn found_word(found: NotOne) -> &'static str
    ensures { result.now ≡ found_word found }
{
    match found {
        NotOne::Zero => "zero",
        NotOne::Many => "many",
    }
}

fn place_json(alloc: Global, columns: &Columns, place: Place) -> Result<Json, NoMemory>
    ensures { IfOk result (λ v. view v ≡ place_data columns.now place) }
{
    match place {
        Place::Cell(object, column) => {
            let path = path_of(alloc, columns, column)?;
            Ok(json!(in alloc; {"cell": [path.text(), object]})?)
        }
        Place::Statement(number) => Ok(json!(in alloc; {"statement": number})?),
        Place::Slot(number) => Ok(json!(in alloc; {"slot": number})?),
    }
}
