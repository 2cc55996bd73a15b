// Bodies and status codes of refusals.
use crate::printed::add;
use sheet_columns::{Columns, Fault, Place};
use sheet_meaning::Which;
use sheet_requests::{Refusal, Reply, WireRefusal};
use sheet_values::{Name, NoMemory};
use std::alloc::Global;

/// Why no request was read.
pub fn add_wire_refusals(
    alloc: Global,
    columns: &Columns,
    out: &mut String,
) -> Result<(), NoMemory> {
    add(alloc, columns, Reply::Wire(WireRefusal::NotJson), out)?;
    let whole = WireRefusal::BadShape(Name::of(alloc, "")?);
    add(alloc, columns, Reply::Wire(whole), out)?;
    let number = WireRefusal::NumberOutside(Name::of(alloc, "number")?);
    add(alloc, columns, Reply::Wire(number), out)?;
    let text = WireRefusal::TextTooLong(Name::of(alloc, "with")?);
    add(alloc, columns, Reply::Wire(text), out)?;
    add(alloc, columns, Reply::Wire(WireRefusal::LaterForm), out)?;
    add(alloc, columns, Reply::Wire(WireRefusal::NoMemory), out)
}

// Adds the line of a refusal.
fn refused(
    alloc: Global,
    columns: &Columns,
    refusal: Refusal,
    out: &mut String,
) -> Result<(), NoMemory> {
    add(alloc, columns, Reply::Refused(refusal), out)
}

/// Refusals of a key, of a caller and of its number.
pub fn add_number_refusals(
    alloc: Global,
    columns: &Columns,
    out: &mut String,
) -> Result<(), NoMemory> {
    refused(alloc, columns, Refusal::DiskFault, out)?;
    refused(alloc, columns, Refusal::UnknownKey, out)?;
    refused(alloc, columns, Refusal::NotOperator, out)?;
    refused(alloc, columns, Refusal::Past(17), out)?;
    refused(alloc, columns, Refusal::Differs, out)?;
    refused(alloc, columns, Refusal::Ahead(1), out)
}

/// Refusals of a name and of arguments, and those of an admission.
pub fn add_admission_refusals(
    alloc: Global,
    columns: &Columns,
    out: &mut String,
) -> Result<(), NoMemory> {
    refused(alloc, columns, Refusal::UnknownName, out)?;
    refused(alloc, columns, Refusal::BadArgument(2), out)?;
    refused(alloc, columns, Refusal::KeyTaken(1), out)?;
    refused(alloc, columns, Refusal::NameTaken(3), out)?;
    refused(alloc, columns, Refusal::TooMany(4000), out)
}

/// Refusals of a procedure's run; the last is of a cell whose column isn't there.
pub fn add_run_refusals(
    alloc: Global,
    columns: &Columns,
    out: &mut String,
) -> Result<(), NoMemory> {
    refused(alloc, columns, Refusal::Denied, out)?;
    let check = Refusal::CheckFailed(3, Name::of(alloc, "the course is full")?);
    refused(alloc, columns, check, out)?;
    let fault = Fault::ZeroDivisor(Place::Statement(2));
    refused(alloc, columns, Refusal::FormulaFault(fault), out)?;
    refused(alloc, columns, Refusal::NotOneCell(0, 2, 0), out)?;
    refused(alloc, columns, Refusal::NotOneCell(9, 3, 2), out)
}

/// Each count that would pass its limit, and want of memory.
pub fn add_limits(alloc: Global, columns: &Columns, out: &mut String) -> Result<(), NoMemory> {
    refused(alloc, columns, Refusal::Full(Which::Objects, 100000), out)?;
    refused(alloc, columns, Refusal::Full(Which::Cells, 1000000), out)?;
    refused(alloc, columns, Refusal::Full(Which::Values, 1000000), out)?;
    let numbers = Refusal::Full(Which::Numbers, 1000000000000);
    refused(alloc, columns, numbers, out)?;
    refused(alloc, columns, Refusal::Full(Which::Reply, 4096), out)?;
    let requests = Refusal::Full(Which::Requests, 1000000000);
    refused(alloc, columns, requests, out)?;
    refused(alloc, columns, Refusal::NoMemory, out)
}
