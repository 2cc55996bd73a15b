//! Work whose time can be measured: `union N TIMES` joins two sets of N numbers, and `leaf N TIMES BOXES` takes one object out of
//! N, which stand in shelves of that many boxes, and lets it come back, and `all N TIMES` does so with all N boxes of one shelf at
//! once. Prints how many values or objects there were.
#![tactic(auto)]

mod leaves;
mod unions;

use crate::leaves::{all_deleted, deleted};
use crate::unions::joined;
use std::alloc::Global;
use std::env;
use std::test::Fail;

fn main(rt: HostRuntime) -> Result<(), Fail> {
    let mut words = env::args(&rt)?.skip(1);
    let what = words.next();
    let size = number(words.next());
    let times = number(words.next());
    let boxes = number(words.next());
    let alloc = rt.alloc();
    let count = match &what {
        Some(word) => measured(alloc, word.as_str(), size, times, boxes)?,
        None => 0,
    };
    println!(rt; "{count}")?;
    Ok(())
}

// Does the work of that word.
fn measured(alloc: Global, work: &str, size: u32, times: u32, boxes: u32) -> Result<u64, Fail> {
    if work == "union" {
        let count = joined(alloc, size, times)?;
        Ok(count)
    } else if work == "all" {
        all_deleted(alloc, size, times)
    } else {
        deleted(alloc, size, times, boxes)
    }
}

// The number that a word stands for, or 0.
fn number(word: Option<String>) -> u32 {
    match word {
        Some(word) => word.parse().unwrap_or(0),
        None => 0,
    }
}
