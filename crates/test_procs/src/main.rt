//! Plays procedures over workbooks. An example `E` is a definition, `E.sheet`, and steps, a line each, `E.steps`. A step is `state`,
//! which prints all that is stored, or a call: the name of a procedure, `-` for the operator or the number of the caller's object, and
//! the arguments, with blanks between them. What each call comes to is printed behind it, and behind a call that didn't run to its end
//! whether the state is as before.
#![tactic(auto)]

ghost use Rattle.std.specs.Prelude.{◌≡◌, ◌<◌};

mod arguments;
mod content;
mod steps;
mod telling;

use crate::steps::play_all;
use sheet_values::{NoMemory, Steps};
use std::alloc::Global;
use std::marker::Brand;
use std::sync::ledger::{Blank, Ledger};
use std::test::Fail;
use std::{env, fs};
use test_procs_calls::workbook;

fn main(rt: HostRuntime) -> Result<(), Fail> {
    let alloc = rt.alloc();
    for name in env::args(&rt)?.skip(1) {
        let definition = format!(in alloc; "{name}.sheet")?;
        let definition = fs::read(&rt, definition.as_str())?;
        let steps = format!(in alloc; "{name}.steps")?;
        let steps = fs::read(&rt, steps.as_str())?;
        let told = told::<Brand>(
            alloc,
            Blank::new(1),
            definition.as_slice(),
            steps.as_slice(),
        )?;
        print!(rt; "{name}\n{told}")?;
    }
    Ok(())
}

// The steps of an example, each with what it comes to.
fn told<G: Ledger>(
    alloc: Global,
    blank: Blank,
    definition: &[u8],
    lines: &[u8],
) -> Result<String, NoMemory>
    requires name { blank.name ≡ G.name }
    requires parts { blank.parts ≡ G.parts }
    requires some { 0 < blank.parts }
{
    let mut steps = Steps::<G>::start(blank);
    match workbook(alloc, definition)? {
        Some(mut filled) => play_all(alloc, &mut filled, lines, &mut steps),
        None => Ok(String::from_str(alloc, "  no book\n")?),
    }
}
