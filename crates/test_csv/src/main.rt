//! Reads the CSV files of the cases in the files that are named, and prints each in a line with its rows, or why it has none. A name
//! that ends with `.page` is that of a page, which is printed as CSV.
#![tactic(auto)]

mod page;
mod parameters;
mod rows;
mod sinks;
mod words;

use crate::page::page_of;
use crate::rows::case;
use crate::sinks::exported;
use std::test::Fail;
use std::{env, fs};

fn main(rt: HostRuntime) -> Result<(), Fail> {
    let alloc = rt.alloc();
    for name in env::args(&rt)?.skip(1) {
        let content = fs::read(&rt, name.as_str())?;
        if name.as_str().ends_with(".page") {
            let page = page_of(alloc, content.as_slice())?;
            let told = exported(alloc, &page)?;
            print!(rt; "{name}\n{told}")?;
        } else {
            for line in content.as_slice().split(|byte| *byte == b'\n') {
                if let Some(told) = case(alloc, line)? {
                    println!(rt; "{told}")?;
                }
            }
        }
    }
    Ok(())
}
