//! Work on a real journal whose time can be measured, in the file J of the folder that it runs in. `append N` begins the journal and
//! appends N records of 60 bytes; `plain N` writes and syncs the same file in the same way without a journal; `fill N` writes a
//! journal of N such records in large pieces, and `read` opens it and reads them. Prints how many records there were.
#![tactic(auto)]

mod plain;
mod records;

use crate::plain::{fill, write_plain};
use crate::records::{append, read};
use sheet_outside_disks::FileDisk;
use std::env;
use std::test::Fail;

fn main(rt: HostRuntime) -> Result<(), Fail> {
    let mut words = env::args(&rt)?.skip(1);
    let what = match words.next() {
        Some(word) => word,
        None => return Ok(()),
    };
    let times = match words.next() {
        Some(word) => word.parse().unwrap_or(0),
        None => 0u32,
    };
    let alloc = rt.alloc();
    let done = match what.as_str() {
        "append" => append(alloc, &mut FileDisk::new(&rt), times),
        "plain" => write_plain(&rt, times),
        "fill" => fill(alloc, &rt, times),
        "read" => read(alloc, &mut FileDisk::new(&rt)),
        _ => None,
    };
    match done {
        Some(count) => println!(rt; "{count}")?,
        None => println!(rt; "failed")?,
    }
    Ok(())
}
