//! Feeds the connections that the named files tell, in many pieces, and prints the steps that each comes to.
#![tactic(auto)]

mod cases;
mod cuts;
mod steps;

use crate::cases::{Case, next_case};
use crate::cuts::{agrees_in_pieces, count_per_length};
use crate::steps::{Cut, steps_of};
use sheet_values::NoMemory;
use std::alloc::Global;
use std::test::Fail;
use std::{env, fs};

fn main(rt: HostRuntime) -> Result<(), Fail> {
    let alloc = rt.alloc();
    for name in env::args(&rt)?.skip(1) {
        let table = fs::read(&rt, name.as_str())?;
        println!(rt; "{name}")?;
        let mut rest = table.as_slice();
        for _ in 0..1000 {
            let Some((case, behind)) = next_case(alloc, rest)? else {
                break;
            };
            rest = behind;
            let told = told(alloc, &case, name.as_str() == "rows.txt")?;
            println!(rt; "== {told}")?;
        }
    }
    Ok(())
}

// What a case comes to, in pieces and, where it is wanted, cut at each pair of places.
fn told(alloc: Global, case: &Case, pairs: bool) -> Result<String, NoMemory> {
    let bytes = case.bytes.as_slice();
    let mut text = String::new(alloc);
    text.push_str(case.name.as_str())?;
    text.push_str("\n")?;
    let steps = steps_of(alloc, bytes, Cut::Whole)?;
    let count = steps.as_str().lines().count();
    if count <= 10 {
        text.push_str(steps.as_str())?;
    } else {
        write!(text, "{count} steps\n").map_err(|_| NoMemory)?;
    }
    text.push_str(if agrees_in_pieces(alloc, bytes, steps.as_str(), pairs)? {
        "the same in all pieces"
    } else {
        "NOT THE SAME IN ALL PIECES"
    })?;
    if bytes.len() < 250 {
        let counts = count_per_length(alloc, bytes)?;
        text.push_str(counts.as_str())?;
    }
    Ok(text)
}
