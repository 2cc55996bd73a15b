//! Plays examples over engines. An example `E` is a definition, `E.sheet`, and steps, a line each, `E.steps`; what each step comes to
//! is printed behind it.
//!
//! `new C O` makes an object of the column with the path C under object O, and `many N C O` makes N of them. `set O C V..` lets a state
//! cell hold these values: truths, numbers, `#N` for objects, and other words as texts. `delete O` takes an object away. `value O C` is
//! the result of a formula cell. `show V O` is what the view V shows the caller O, and `show V` the operator. `count` counts objects and
//! kept results. `undone A; B; ..` makes these steps and takes the engine back to before them; `forget` drops what undo keeps.
#![tactic(auto)]

ghost use Rattle.std.specs.Prelude.{◌≡◌, ◌<◌};

mod change;
mod page;
mod play;
mod words;

use crate::play::play_all;
use sheet_values::{NoMemory, Steps};
use std::alloc::Global;
use std::marker::Brand;
use std::sync::ledger::{Blank, Ledger};
use std::test::Fail;
use std::{env, fs};
use test_engine_calls::started;

fn main(rt: HostRuntime) -> Result<(), Fail> {
    for name in env::args(&rt)?.skip(1) {
        play_example(&rt, name.as_str())?;
    }
    Ok(())
}

// Plays an example and prints what comes of it.
fn play_example(rt: &HostRuntime, name: &str) -> Result<(), Fail> {
    let definition = contents(rt, name, ".sheet")?;
    let steps = contents(rt, name, ".steps")?;
    let told = told(rt.alloc(), definition.as_slice(), steps.as_slice())?;
    print!(rt; "{name}\n{told}")?;
    Ok(())
}

// What the file of an example with this ending holds.
fn contents(rt: &HostRuntime, name: &str, ending: &str) -> Result<Vec<u8>, Fail> {
    let path = format!(in rt.alloc(); "{name}{ending}")?;
    let contents = fs::read(rt, path.as_str())?;
    Ok(contents)
}

// The steps of an example, each with what it comes to.
fn told(alloc: Global, definition: &[u8], lines: &[u8]) -> Result<String, NoMemory> {
    counted::<Brand>(alloc, Blank::new(1), definition, lines)
}

// The same, with its evaluations counted.
fn counted<G: Ledger>(
    alloc: Global,
    blank: Blank,
    definition: &[u8],
    lines: &[u8],
) -> Result<String, NoMemory>
    requires name { blank.name ≡ G.name }
    requires parts { blank.parts ≡ G.parts }
    requires some { 0 < blank.parts }
{
    let mut steps = Steps::<G>::start(blank);
    match started(alloc, definition)? {
        Some(mut engine) => play_all(alloc, &mut engine, lines, &mut steps),
        None => Ok(String::from_str(alloc, "  no book\n")?),
    }
}
