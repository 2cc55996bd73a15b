//! A workbook that is defined in a text, changed by procedures and shown by views.
#![tactic(auto)]

mod command;
mod opening;
mod run;
mod session;
mod stop;
mod trying;

use crate::run::run;
use objsheet_status::{DISK_FAILED, OUT_OF_MEMORY, SINK_FAILED, SOURCE_FAILED};
use sheet_outside::{StdSink, StdSource};
use sheet_outside_disks::FileDisk;
use std::io::ErrorKind;
use std::process::ExitCode;
use std::{env, io};

fn main(rt: HostRuntime) -> ExitCode {
    let status = run_outside(&rt);
    if let Some(line) = explanation(status) {
        // Where this can't be written either, the status alone tells.
        let _ = eprintln!(rt; "{line}");
    }
    ExitCode::from(status)
}

// Runs the program over standard input, standard output and the files of the system.
fn run_outside(rt: &HostRuntime) -> u8 {
    let words = match words(rt) {
        Ok(words) => words,
        Err(e) => {
            if e.kind() != ErrorKind::InvalidData {
                return OUT_OF_MEMORY;
            }
            // Words that aren't UTF-8 are those of no command, as none are.
            Vec::new(rt.alloc())
        }
    };
    let mut input = StdSource::new(rt.reader());
    let mut output = StdSink::new(io::writer(rt));
    let mut disk = FileDisk::new(rt);
    run(
        rt.alloc(),
        words.as_slice(),
        &mut input,
        &mut output,
        &mut disk,
    )
}

// The words after the program's name.
fn words(rt: &HostRuntime) -> io::Result<Vec<Vec<u8>>> {
    let mut words = Vec::new(rt.alloc());
    for word in env::args(rt)?.skip(1) {
        words.push(word.into_bytes())?;
    }
    Ok(words)
}

// What people are told of a status that the output doesn't explain.
fn explanation(status: u8) -> Option<&'static str> {
    match status {
        SOURCE_FAILED => Some("objsheet: the input could not be read"),
        SINK_FAILED => Some("objsheet: the output could not be written"),
        DISK_FAILED => Some("objsheet: the disk failed"),
        OUT_OF_MEMORY => Some("objsheet: there was no memory"),
        _ => None,
    }
}
