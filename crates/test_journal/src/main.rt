//! Runs the journals that the named tables tell, on disks in memory whose calls fail and on files of the system, and prints what each
//! comes to, and what is read after a crash behind each call.
#![tactic(auto)]

mod cases;
mod held;
mod images;
mod runs;
mod script;

use crate::runs::told_of;
use std::test::Fail;
use std::{env, fs};

fn main(rt: HostRuntime) -> Result<(), Fail> {
    let alloc = rt.alloc();
    for name in env::args(&rt)?.skip(1) {
        let table = fs::read_to_string(&rt, name.as_str())?;
        println!(rt; "{name}")?;
        for case in table.as_str().split("\n\n") {
            let told = told_of(alloc, &rt, case)?;
            println!(rt; "{told}")?;
        }
    }
    Ok(())
}
