//! Reading whose time can be measured: `KIND LENGTH TIMES` reads a hostile text of about so many bytes, so many times, and prints
//! what it was refused with, or `read`.
#![tactic(auto)]

mod texts;

use crate::texts::hostile;
use sheet_syntax::{SyntaxRefusal, parse_formula};
use std::alloc::Global;
use std::env;
use std::test::Fail;

fn main(rt: HostRuntime) -> Result<(), Fail> {
    let mut words = env::args(&rt)?.skip(1);
    let kind = words.next();
    let length = number(words.next());
    let times = number(words.next());
    let alloc = rt.alloc();
    let text = match &kind {
        Some(word) => hostile(alloc, word.as_bytes(), length)?,
        None => hostile(alloc, b"", length)?,
    };
    let mut outcome = Ok(());
    for _ in 0..times {
        outcome = read(alloc, text.as_slice());
    }
    match outcome {
        Ok(()) => println!(rt; "read")?,
        Err(SyntaxRefusal::BadToken(offset)) => println!(rt; "bad token {offset}")?,
        Err(SyntaxRefusal::NumberTooWide(offset)) => println!(rt; "number too wide {offset}")?,
        Err(SyntaxRefusal::Expected(offset)) => println!(rt; "expected other {offset}")?,
        Err(SyntaxRefusal::TooNested(offset)) => println!(rt; "too nested {offset}")?,
        Err(SyntaxRefusal::NoMemory) => println!(rt; "no memory")?,
    }
    Ok(())
}

// The number that a word stands for, or 0.
fn number(word: Option<String>) -> usize {
    match word {
        Some(word) => word.parse().unwrap_or(0),
        None => 0,
    }
}

// Whether a text is a formula, or why it isn't. A text over 1,000,000 bytes isn't read.
fn read(alloc: Global, text: &[u8]) -> Result<(), SyntaxRefusal> {
    if text.len() > 1_000_000 {
        return Err(SyntaxRefusal::NoMemory);
    }
    parse_formula(alloc, text)?;
    Ok(())
}
