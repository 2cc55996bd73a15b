//! Formula cells whose working out can be timed: `sum N TIMES` sums a cell of N objects, `chain N TIMES` works out N cells of which each
//! rests on the next, `parent N TIMES` a cell of each of N objects that reads a cell of their parent, and `turns N TIMES` lets each of N
//! objects look at all of them. Each makes its workbook, asks for the result so many times, and prints the last one.
#![tactic(auto)]

ghost use Rattle.std.specs.Prelude.{◌≡◌, ◌<◌};

mod filling;
mod works;

use crate::works::measured;
use sheet_state::StateRefusal;
use std::alloc::Global;
use std::env;
use std::marker::Brand;
use std::sync::ledger::Blank;
use std::test::Fail;

fn main(rt: HostRuntime) -> Result<(), Fail> {
    let mut words = env::args(&rt)?.skip(1);
    let work = words.next().ok_or("a work is wanted")?;
    let size = number(words.next());
    let times = number(words.next());
    let last = last_result(rt.alloc(), work.as_bytes(), size, times)?;
    println!(rt; "{last}")?;
    Ok(())
}

// What a work of that size comes to when it is asked for so many times.
fn last_result(alloc: Global, work: &[u8], size: u32, times: u32) -> Result<i64, StateRefusal> {
    measured::<Brand>(alloc, Blank::new(1), work, size, times)
}

// The number that a word stands for, or 0.
fn number(word: Option<String>) -> u32 {
    match word {
        Some(word) => word.parse().unwrap_or(0),
        None => 0,
    }
}
