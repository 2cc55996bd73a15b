// What is worked out.
ghost use Rattle.std.specs.Prelude.{◌≡◌, ◌<◌};

use crate::filling::{fill, fill_below, fill_chain, fill_numbered};
use sheet_engine::Engine;
use sheet_state::StateRefusal;
use sheet_values::{NoMemory, Set, Steps, Value};
use std::alloc::Global;
use std::sync::ledger::{Blank, Ledger};
use test_engine_calls::{result_of, started};

const SUM: &[u8] = b"object T { state k : number one = 1 }
formula total = sum(t.k : t in T)
";

const CHAIN: &[u8] = b"object N {
  state next : N
  formula depth = 1 + sum(n.depth : n in next)
}
";

const PARENT: &[u8] = b"object P {
  state rate : number one = 2
  object T {
    state k : number one = 1
    formula f = rate * k
  }
}
formula all_of_them = sum(t.f : t in P.T)
";

const TURNS: &[u8] = b"object T { state k : number one = 0 }
formula H = sum(count({b : b in T | b.k = a.k}) : a in T)
";

// The definition of a work.
fn definition_of(work: &[u8]) -> &'static [u8] {
    if work == b"sum".as_slice() {
        SUM
    } else if work == b"chain".as_slice() {
        CHAIN
    } else if work == b"parent".as_slice() {
        PARENT
    } else {
        TURNS
    }
}

// Makes the workbook of a work.
fn fill_for(
    alloc: Global,
    engine: &mut Engine,
    work: &[u8],
    size: u32,
) -> Result<(), StateRefusal> {
    if work == b"sum".as_slice() {
        fill(engine, size)
    } else if work == b"chain".as_slice() {
        fill_chain(alloc, engine, size)
    } else if work == b"parent".as_slice() {
        fill_below(engine, size)
    } else {
        fill_numbered(alloc, engine, size)
    }
}

// The formula cell that a work asks for.
fn cell_of(work: &[u8], size: u32) -> (u64, u32) {
    if work == b"chain".as_slice() {
        (u64::from(size), 3)
    } else if work == b"parent".as_slice() {
        (0, 6)
    } else {
        (0, 3)
    }
}

// The one number of a set, or 0.
fn number_in(set: &Set) -> i64 {
    match set.as_slice() {
        [Value::Number(number)] => *number,
        _ => 0,
    }
}

// The number that a formula cell comes to, or 0.
fn number_at<G: Ledger>(
    engine: &mut Engine,
    cell: (u64, u32),
    steps: &mut Steps<G>,
) -> Result<i64, NoMemory> {
    match result_of(engine, cell.0, cell.1, steps)? {
        Some(Ok(set)) => Ok(number_in(&set)),
        _ => Ok(0),
    }
}

// Asks for a formula cell that many times; what it comes to.
fn asked<G: Ledger>(
    engine: &mut Engine,
    cell: (u64, u32),
    times: u32,
    steps: &mut Steps<G>,
) -> Result<i64, NoMemory> {
    let mut last = 0;
    for _ in 0..times {
        last = number_at(engine, cell, steps)?;
    }
    Ok(last)
}

// Makes the workbook of a work, and asks.
fn worked<G: Ledger>(
    alloc: Global,
    engine: &mut Engine,
    work: &[u8],
    size: u32,
    times: u32,
    steps: &mut Steps<G>,
) -> Result<i64, StateRefusal> {
    fill_for(alloc, engine, work, size)?;
    engine.forget();
    let last = asked(engine, cell_of(work, size), times, steps)?;
    Ok(last)
}

/// Makes the workbook of a work with that many objects and asks for its result that many times; the last one, and 0 where it isn't asked
/// for.
pub fn measured<G: Ledger>(
    alloc: Global,
    blank: Blank,
    work: &[u8],
    size: u32,
    times: u32,
) -> Result<i64, StateRefusal>
    requires name { blank.name ≡ G.name }
    requires parts { blank.parts ≡ G.parts }
    requires some { 0 < blank.parts }
{
    let mut steps = Steps::<G>::start(blank);
    match started(alloc, definition_of(work))? {
        Some(mut engine) => worked(alloc, &mut engine, work, size, times, &mut steps),
        None => Ok(0),
    }
}
