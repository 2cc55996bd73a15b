//! Reads the definitions in the files that are named, and those of the cases in files named `.cases`, and tells of each how many bytes
//! its printed text has and whether that reads back as itself, or why it is refused.
#![tactic(auto)]

use sheet_define::{
    Definition, DefinitionRefusal, SyntaxRefusal, print_definition, printed_length, read_definition,
};
use sheet_values::NoMemory;
use std::alloc::Global;
use std::test::Fail;
use std::{env, fs};
use test_cases::{text_of, word_and_text};

fn main(rt: HostRuntime) -> Result<(), Fail> {
    let alloc = rt.alloc();
    let mut before = Vec::new(alloc);
    for name in env::args(&rt)?.skip(1) {
        let bytes = fs::read(&rt, name.as_str())?;
        if name.as_bytes().ends_with(b".cases") {
            for line in bytes.as_slice().split(|byte| *byte == b'\n') {
                if let Some(told) = case(alloc, line)? {
                    println!(rt; "{told}")?;
                }
            }
        } else {
            let told = told(alloc, bytes.as_slice())?;
            let same = as_before(alloc, before.as_slice(), bytes.as_slice())?;
            println!(rt; "{name}: {told}{same}")?;
            before = bytes;
        }
    }
    Ok(())
}

// A case and what it comes to; an empty line is no case.
fn case(alloc: Global, line: &[u8]) -> Result<Option<String>, NoMemory> {
    if line.is_empty() {
        return Ok(None);
    }
    let (word, written) = word_and_text(line);
    let text = text_of(alloc, written)?;
    let outcome = match word {
        b"definition" => told(alloc, text.as_slice())?,
        b"reads" => read(alloc, text.as_slice())?,
        _ => format!(in alloc; "no case")?,
    };
    let case = str::from_utf8(line).unwrap_or("?");
    Ok(Some(format!(in alloc; "{case} => {outcome}")?))
}

// Whether a text is read, without printing it.
fn read(alloc: Global, text: &[u8]) -> Result<String, NoMemory> {
    match read_definition(alloc, text) {
        Ok(_) => Ok(format!(in alloc; "read")?),
        Err(refusal) => refused(alloc, refusal),
    }
}

// What a text comes to.
fn told(alloc: Global, text: &[u8]) -> Result<String, NoMemory> {
    match read_definition(alloc, text) {
        Ok(definition) => printed(alloc, text, &definition),
        Err(refusal) => refused(alloc, refusal),
    }
}

// How long the printed text of a definition is, and whether that is the text that was read, or at least reads back as itself.
fn printed(alloc: Global, read: &[u8], definition: &Definition) -> Result<String, NoMemory> {
    let length = printed_length(definition);
    let text = print_definition(alloc, definition)?;
    let back = if text.as_slice() == read {
        "as it stands"
    } else if is_printed_as(alloc, text.as_slice(), text.as_slice())? {
        "reads back as itself"
    } else {
        "reads back as another"
    };
    Ok(format!(in alloc; "printed in {length} bytes, {back}")?)
}

// Whether a text is the one that the text before it is printed as.
fn as_before(alloc: Global, before: &[u8], text: &[u8]) -> Result<&'static str, NoMemory> {
    if is_printed_as(alloc, before, text)? {
        Ok(", and the printed text of the file before")
    } else {
        Ok("")
    }
}

// Whether the first text is printed as the second.
fn is_printed_as(alloc: Global, text: &[u8], wanted: &[u8]) -> Result<bool, NoMemory> {
    match read_definition(alloc, text) {
        Ok(definition) => {
            let again = print_definition(alloc, &definition)?;
            Ok(again.as_slice() == wanted)
        }
        Err(_) => Ok(false),
    }
}

fn refused(alloc: Global, refusal: DefinitionRefusal) -> Result<String, NoMemory> {
    match refusal {
        DefinitionRefusal::TooLong(length) => Ok(format!(in alloc; "too long, {length} bytes")?),
        DefinitionRefusal::NotUtf8(offset) => Ok(format!(in alloc; "not utf-8, offset {offset}")?),
        DefinitionRefusal::Syntax(refusal, line) => placed(alloc, refusal, line),
        DefinitionRefusal::NoMemory => Err(NoMemory),
    }
}

fn placed(alloc: Global, refusal: SyntaxRefusal, line: u32) -> Result<String, NoMemory> {
    let (word, offset) = match refusal {
        SyntaxRefusal::BadToken(offset) => ("bad token", offset),
        SyntaxRefusal::NumberTooWide(offset) => ("number too wide", offset),
        SyntaxRefusal::Expected(offset) => ("expected other", offset),
        SyntaxRefusal::TooNested(offset) => ("too nested", offset),
        SyntaxRefusal::NoMemory => return Err(NoMemory),
    };
    Ok(format!(in alloc; "{word}, line {line}, offset {offset}")?)
}
