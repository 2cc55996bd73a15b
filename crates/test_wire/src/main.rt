//! Reads the bodies in the files that are named, and prints each with what it stands for; then the status codes and the
//! bodies of replies, and the lines of requests.
#![tactic(auto)]

mod bodies;
mod lines;
mod pages;
mod printed;
mod refusals;

use crate::bodies::told;
use crate::lines::{add_admission, add_call, add_look, add_reads};
use crate::pages::{add_callers, add_counts, add_items, add_shows, add_tables, add_values};
use crate::refusals::{
    add_admission_refusals, add_limits, add_number_refusals, add_run_refusals, add_wire_refusals,
};
use sheet_columns::{Column, Columns};
use sheet_values::{Name, NoMemory};
use std::alloc::Global;
use std::test::Fail;
use std::{env, fs};

fn main(rt: HostRuntime) -> Result<(), Fail> {
    let alloc = rt.alloc();
    for name in env::args(&rt)?.skip(1) {
        let table = fs::read(&rt, name.as_str())?;
        for case in table.as_slice().split(|byte| *byte == b'\n') {
            if !case.is_empty() {
                let told = told(alloc, case)?;
                println!(rt; "{told}")?;
            }
        }
    }
    let printed = replies_and_lines(alloc)?;
    print!(rt; "{printed}")?;
    Ok(())
}

// What is printed of replies and of requests.
fn replies_and_lines(alloc: Global) -> Result<String, Fail> {
    let columns = club(alloc)?;
    let mut printed = String::new(alloc);
    add_replies(alloc, &columns, &mut printed)?;
    add_refusals(alloc, &columns, &mut printed)?;
    add_lines(alloc, &mut printed)?;
    Ok(printed)
}

// The columns `Course` and `Course.Seat`, with the numbers 1 and 2.
fn club(alloc: Global) -> Result<Columns, Fail> {
    let mut columns = Columns::new(alloc)?;
    let course = columns.add(0, Name::of(alloc, "Course")?, Column::Object)?;
    columns.add(course, Name::of(alloc, "Seat")?, Column::Object)?;
    Ok(columns)
}

fn add_replies(alloc: Global, columns: &Columns, out: &mut String) -> Result<(), NoMemory> {
    add_values(alloc, columns, out)?;
    add_callers(alloc, columns, out)?;
    add_shows(alloc, columns, out)?;
    add_tables(alloc, columns, out)?;
    add_items(alloc, columns, out)?;
    add_counts(alloc, columns, out)
}

fn add_refusals(alloc: Global, columns: &Columns, out: &mut String) -> Result<(), NoMemory> {
    add_wire_refusals(alloc, columns, out)?;
    add_number_refusals(alloc, columns, out)?;
    add_admission_refusals(alloc, columns, out)?;
    add_run_refusals(alloc, columns, out)?;
    add_limits(alloc, columns, out)
}

fn add_lines(alloc: Global, out: &mut String) -> Result<(), NoMemory> {
    add_call(alloc, out)?;
    add_look(alloc, out)?;
    add_reads(alloc, out)?;
    add_admission(alloc, out)
}
