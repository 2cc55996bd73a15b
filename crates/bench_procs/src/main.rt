//! Work whose time can be measured. The words are a file with a definition, the name of a procedure, a number and how many times: the
//! procedure `fill` is called with the number, and then the named one so often. Prints how many objects there are at the end.
#![tactic(auto)]

ghost use Rattle.std.specs.Prelude.{◌≡◌, ◌<◌};

use sheet_values::{NoMemory, Steps, Value, Values};
use std::alloc::Global;
use std::marker::Brand;
use std::sync::ledger::{Blank, Ledger};
use std::test::Fail;
use std::{env, fs};
use test_procs_calls::{Filled, workbook};

fn main(rt: HostRuntime) -> Result<(), Fail> {
    let alloc = rt.alloc();
    let mut words = env::args(&rt)?.skip(1);
    let (Some(file), Some(procedure)) = (words.next(), words.next()) else {
        return Ok(());
    };
    let count = number(words.next());
    let times = number(words.next());
    let text = fs::read(&rt, file.as_str())?;
    let told = told::<Brand>(
        alloc,
        Blank::new(1),
        text.as_slice(),
        procedure.as_bytes(),
        count,
        times,
    )?;
    println!(rt; "{told}")?;
    Ok(())
}

// The number that a word stands for, or 0.
fn number(word: Option<String>) -> u32 {
    match word {
        Some(word) => word.parse().unwrap_or(0),
        None => 0,
    }
}

// Does the work on the workbook of a definition; how many objects there are at its end.
fn told<G: Ledger>(
    alloc: Global,
    blank: Blank,
    text: &[u8],
    procedure: &[u8],
    count: u32,
    times: u32,
) -> Result<u64, NoMemory>
    requires name { blank.name ≡ G.name }
    requires parts { blank.parts ≡ G.parts }
    requires some { 0 < blank.parts }
{
    let mut steps = Steps::<G>::start(blank);
    match workbook(alloc, text)? {
        Some(mut filled) => measured(alloc, &mut filled, procedure, count, times, &mut steps),
        None => Ok(0),
    }
}

// Fills a workbook, and calls a procedure that many times; how many objects there are.
fn measured<G: Ledger>(
    alloc: Global,
    filled: &mut Filled,
    procedure: &[u8],
    count: u32,
    times: u32,
    steps: &mut Steps<G>,
) -> Result<u64, NoMemory> {
    fill(alloc, filled, count, steps)?;
    call_often(alloc, filled, procedure, times, steps);
    Ok(filled.state().objects())
}

// Fills a workbook. What would take it back is dropped.
fn fill<G: Ledger>(
    alloc: Global,
    filled: &mut Filled,
    count: u32,
    steps: &mut Steps<G>,
) -> Result<(), NoMemory> {
    let mut arguments = Values::new(alloc);
    arguments.push(Value::Number(count as i64))?;
    let _ = filled.call(b"fill".as_slice(), None, &arguments, steps);
    filled.forget();
    Ok(())
}

// Calls a procedure without arguments that many times.
fn call_often<G: Ledger>(
    alloc: Global,
    filled: &mut Filled,
    procedure: &[u8],
    times: u32,
    steps: &mut Steps<G>,
) {
    let none = Values::new(alloc);
    for _ in 0..times {
        let _ = filled.call(procedure, None, &none, steps);
    }
}
