//! Runs random procedures on random workbooks, and by the plain program too. The words are how many runs, a file of a definition in
//! which `@` and a letter stand for a random piece, and a file of rules, which say what these pieces are. Prints how many runs there
//! were, what they came to, and in how many of them the two programs differ in the reply, the refusal or the state.
#![tactic(auto)]

ghost use Rattle.std.specs.Prelude.{◌≡◌, ◌<◌};

mod comparing;
mod counts;
mod drawing;
mod playing;
mod rules;
mod sheet;

use crate::playing::play_all;
use crate::rules::read_rules;
use sheet_values::{NoMemory, Steps};
use std::alloc::Global;
use std::marker::Brand;
use std::sync::ledger::{Blank, Ledger};
use std::test::Fail;
use std::{env, fs};

fn main(rt: HostRuntime) -> Result<(), Fail> {
    let alloc = rt.alloc();
    let mut words = env::args(&rt)?.skip(1);
    let (Some(count), Some(template), Some(rules)) = (words.next(), words.next(), words.next())
    else {
        return Ok(());
    };
    let count = count.parse().unwrap_or(0);
    let template = fs::read(&rt, template.as_str())?;
    let rules = fs::read(&rt, rules.as_str())?;
    let told = told::<Brand>(
        alloc,
        Blank::new(1),
        count,
        template.as_slice(),
        rules.as_slice(),
    )?;
    print!(rt; "{told}")?;
    Ok(())
}

// What so many runs come to.
fn told<G: Ledger>(
    alloc: Global,
    blank: Blank,
    count: u64,
    template: &[u8],
    rules: &[u8],
) -> Result<String, NoMemory>
    requires name { blank.name ≡ G.name }
    requires parts { blank.parts ≡ G.parts }
    requires some { 0 < blank.parts }
{
    let mut steps = Steps::<G>::start(blank);
    let rules = read_rules(alloc, rules)?;
    let counts = play_all(alloc, count, template, &rules, &mut steps)?;
    counts.text(alloc)
}
