//! Checks the definitions in the files that are named, and prints a line for each: the status, and the line that `check` prints.
//!
//! In a file each definition stands behind a line that begins with `----`, on which a remark may follow.
#![tactic(auto)]

use objsheet_check::check;
use sheet_outside::{SureSink, SureSource};
use std::alloc::Global;
use std::test::Fail;
use std::{env, fs};

fn main(rt: HostRuntime) -> Result<(), Fail> {
    let alloc = rt.alloc();
    for name in env::args(&rt)?.skip(1) {
        let bytes = fs::read(&rt, name.as_str())?;
        let definitions = definitions(alloc, bytes.as_slice())?;
        for (number, text) in definitions.iter().enumerate() {
            let (status, line) = checked(alloc, text.as_slice())?;
            let place = number.saturating_add(1);
            print!(rt; "{name} {place}: status {status}, {line}")?;
        }
    }
    Ok(())
}

// The definitions of a file: the lines between those that begin with `----`, without the last line feed.
fn definitions(alloc: Global, bytes: &[u8]) -> Result<Vec<Vec<u8>>, Fail> {
    let mut definitions: Vec<Vec<u8>> = Vec::new(alloc);
    let mut is_first = true;
    let text = bytes.strip_suffix(b"\n".as_slice()).unwrap_or(bytes);
    for line in text.split(|byte| *byte == b'\n') {
        if line.starts_with(b"----".as_slice()) {
            definitions.push(Vec::new(alloc))?;
            is_first = true;
        } else if let Some(definition) = definitions.last_mut() {
            if !is_first {
                definition.push(b'\n')?;
            }
            definition.extend_from_slice(line)?;
            is_first = false;
        }
    }
    Ok(definitions)
}

// The status of `check` over a definition, and what it prints.
fn checked(alloc: Global, text: &[u8]) -> Result<(u8, String), Fail> {
    let mut source = SureSource::new(text.to_vec(alloc)?);
    let mut sink = SureSink::new(Vec::new(alloc));
    let status = check(alloc, &mut source, &mut sink);
    let line = sink
        .bytes()
        .ok_or("nothing is told of the sink")?
        .to_vec(alloc)?;
    Ok((status, String::from_utf8(line)?))
}

#[cfg(test)]
mod books;
#[cfg(test)]
mod tests;
