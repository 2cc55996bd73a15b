// The text of a workbook, and what of it is written where a write fails.
use sheet_engine::Engine;
use sheet_outside::{MemorySink, WriteRefusal};
use sheet_print::print_book;
use sheet_values::{NoMemory, Steps};
use std::alloc::Global;
use std::sync::ledger::Ledger;

/// The text of a workbook, and a line for each write.
pub fn printed<G: Ledger>(
    alloc: Global,
    engine: &mut Engine,
    steps: &mut Steps<G>,
) -> Result<String, NoMemory> {
    // No write has the number 0.
    match written(alloc, engine, 0, steps)? {
        Ok(text) => tell_writes(alloc, engine, text.as_slice(), steps),
        Err(_) => Ok(String::from_str(alloc, "not written\n")?),
    }
}

// The text, and a line for each write.
fn tell_writes<G: Ledger>(
    alloc: Global,
    engine: &mut Engine,
    text: &[u8],
    steps: &mut Steps<G>,
) -> Result<String, NoMemory> {
    let mut told = String::from_str(alloc, str::from_utf8(text).unwrap_or("?"))?;
    // A book has at most 1,000 columns.
    for write in 1..1002 {
        if tell_write(alloc, &mut told, engine, text, write, steps)? {
            return Ok(told);
        }
    }
    Ok(told)
}

// What is written where this write fails, counted from 1; whether the whole text is.
fn tell_write<G: Ledger>(
    alloc: Global,
    told: &mut String,
    engine: &mut Engine,
    text: &[u8],
    write: u64,
    steps: &mut Steps<G>,
) -> Result<bool, NoMemory> {
    match written(alloc, engine, write, steps)? {
        Ok(all) => {
            let line = whole_line(alloc, text, all.as_slice(), write)?;
            told.push_str(line.as_str())?;
            Ok(true)
        }
        Err(front) => {
            let line = front_line(alloc, text, front.as_slice(), write)?;
            told.push_str(line.as_str())?;
            Ok(false)
        }
    }
}

// The line of a printing in which no write failed.
fn whole_line(alloc: Global, text: &[u8], all: &[u8], write: u64) -> Result<String, NoMemory> {
    let (writes, bytes) = (write.saturating_sub(1), all.len());
    let line = if all == text {
        format!(in alloc; "{writes} writes: {bytes} bytes\n")?
    } else {
        format!(in alloc; "{writes} writes: another text\n")?
    };
    Ok(line)
}

// The line of a printing in which a write failed.
fn front_line(alloc: Global, text: &[u8], front: &[u8], write: u64) -> Result<String, NoMemory> {
    let bytes = front.len();
    let line = if text.starts_with(front) {
        format!(in alloc; "write {write} fails: {bytes} bytes\n")?
    } else {
        format!(in alloc; "write {write} fails: no front\n")?
    };
    Ok(line)
}

// What is written where this write fails, counted from 1: all, or what came before it.
fn written<G: Ledger>(
    alloc: Global,
    engine: &mut Engine,
    fails: u64,
    steps: &mut Steps<G>,
) -> Result<Result<Vec<u8>, Vec<u8>>, NoMemory> {
    let mut numbers = Vec::new(alloc);
    numbers.push(fails)?;
    let mut sink = MemorySink::new(Vec::new(alloc), numbers);
    match print_book(alloc, engine, &mut sink, steps) {
        Ok(()) => Ok(Ok(bytes_of(alloc, &sink)?)),
        Err(WriteRefusal::WriteFault) => Ok(Err(bytes_of(alloc, &sink)?)),
        Err(WriteRefusal::NoMemory) => Err(NoMemory),
    }
}

// What a sink holds.
fn bytes_of(alloc: Global, sink: &MemorySink) -> Result<Vec<u8>, NoMemory> {
    match sink.bytes() {
        Some(bytes) => {
            let copy = Vec::from_slice(alloc, bytes)?;
            Ok(copy)
        }
        None => Err(NoMemory),
    }
}
