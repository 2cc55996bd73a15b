//! Evaluates the formulas of the cases in the files that are named, over a small content that is the same for all, and prints each in a
//! line with what it comes to and what it reads.
#![tactic(auto)]

mod cases;
mod content;
mod printing;
mod rows;
mod shop;

use crate::cases::case;
use crate::shop::{Shop, make_shop};
use std::test::Fail;
use std::{env, fs};

fn main(rt: HostRuntime) -> Result<(), Fail> {
    let alloc = rt.alloc();
    let shop = make_shop(alloc)?;
    for name in env::args(&rt)?.skip(1) {
        let table = fs::read(&rt, name.as_str())?;
        for line in table.as_slice().split(|byte| *byte == b'\n') {
            if let Some(told) = case(alloc, &shop, line)? {
                println!(rt; "{told}")?;
            }
        }
    }
    Ok(())
}
