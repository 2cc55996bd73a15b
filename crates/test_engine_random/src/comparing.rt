// The engine beside the plain program.
use crate::changes::BOUND;
use crate::counts::Counts;
use crate::lists::listed;
use plain_lists::WorkedCell;
use plain_meaning::settled;
use sheet_columns::Fault;
use sheet_engine::Engine;
use sheet_meaning::Schema;
use sheet_values::{NoMemory, Set, Steps, Value};
use std::alloc::Global;
use std::sync::ledger::Ledger;
use test_engine_calls::result_of;

/// Compares every formula cell.
pub fn compared<G: Ledger>(
    alloc: Global,
    engine: &mut Engine,
    schema: &Schema,
    counts: &mut Counts,
    steps: &mut Steps<G>,
) -> Result<(), NoMemory> {
    let state = listed(alloc, engine, BOUND.saturating_mul(4))?;
    let cells = settled(alloc, schema, &state)?;
    for cell in cells.as_slice() {
        compare_cell(engine, cell, counts, steps)?;
    }
    Ok(())
}

// Compares a formula cell.
fn compare_cell<G: Ledger>(
    engine: &mut Engine,
    cell: &WorkedCell,
    counts: &mut Counts,
    steps: &mut Steps<G>,
) -> Result<(), NoMemory> {
    match (
        result_of(engine, cell.object, cell.column, steps)?,
        &cell.outcome,
    ) {
        (Some(Ok(set)), Ok(values)) => compare_sets(&set, values.as_slice(), counts),
        (Some(Err(found)), Err(fault)) => compare_faults(found, *fault, counts),
        _ => counts.differ(),
    }
    Ok(())
}

fn compare_sets(set: &Set, values: &[Value], counts: &mut Counts) {
    counts.know();
    if set.len() != values.len() || !are_same(set.as_slice(), values) {
        counts.differ();
    }
}

fn compare_faults(found: Fault, fault: Fault, counts: &mut Counts) {
    if fault == Fault::Cycle {
        counts.cycle();
    } else {
        counts.fault();
    }
    if found != fault {
        counts.differ();
    }
}

// Whether the values are the same, as far as both lists go.
fn are_same(left: &[Value], right: &[Value]) -> bool {
    left.iter().zip(right).all(|(a, b)| a.is_same(b))
}
