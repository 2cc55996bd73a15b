//! Random definitions and workbooks: `GRAMMAR N SEED` makes N of each and compares every formula cell of an engine with what the plain
//! program comes to. A line of the grammar is a letter, a digit where it holds for formulas of one home alone (0 the root, 1 `T`,
//! 2 `T.U`), and a text, in which `@` and a letter stand for any text of that letter. The first three texts of a letter end the growth.
#![tactic(auto)]

ghost use Rattle.std.specs.Prelude.{◌≡◌, ◌<◌};

mod changes;
mod comparing;
mod counts;
mod drafts;
mod growing;
mod lists;
mod schemas;

use crate::changes::change_some;
use crate::comparing::compared;
use crate::counts::Counts;
use crate::drafts::{Draft, drafted};
use crate::schemas::schema;
use sheet_engine::Engine;
use sheet_values::Steps;
use std::alloc::Global;
use std::marker::Brand;
use std::sync::ledger::{Blank, Ledger};
use std::test::Fail;
use std::{env, fs};
use test_engine_calls::started;
use test_state::Random;

fn main(rt: HostRuntime) -> Result<(), Fail> {
    let mut words = env::args(&rt)?.skip(1);
    let name = words.next().ok_or("a grammar is wanted")?;
    let books = number(words.next());
    let seed = number(words.next());
    let grammar = fs::read(&rt, name.as_str())?;
    let counts = counted(rt.alloc(), grammar.as_slice(), books, seed)?;
    tell(&rt, books, counts)
}

// Prints what came.
fn tell(rt: &HostRuntime, books: u64, counts: Counts) -> Result<(), Fail> {
    let Counts {
        refused,
        known,
        faults,
        cycles,
        differ,
    } = counts;
    println!(rt; "{books} books, {refused} refused")?;
    println!(rt; "{known} sets, {faults} faults, {cycles} cycles, {differ} cells differ")?;
    Ok(())
}

// The number that a word stands for, or 0.
fn number(word: Option<String>) -> u64 {
    match word {
        Some(word) => word.parse().unwrap_or(0),
        None => 0,
    }
}

// Makes and compares that many.
fn counted(alloc: Global, grammar: &[u8], books: u64, seed: u64) -> Result<Counts, Fail> {
    tried::<Brand>(alloc, Blank::new(1), grammar, books, seed)
}

// The same, with the evaluations counted.
fn tried<G: Ledger>(
    alloc: Global,
    blank: Blank,
    grammar: &[u8],
    books: u64,
    seed: u64,
) -> Result<Counts, Fail>
    requires name { blank.name ≡ G.name }
    requires parts { blank.parts ≡ G.parts }
    requires some { 0 < blank.parts }
{
    let mut steps = Steps::<G>::start(blank);
    let mut random = Random::new(seed);
    let mut counts = Counts::new();
    for _ in 0..books {
        let draft = drafted(alloc, grammar, &mut random)?;
        try_draft(alloc, &draft, &mut random, &mut counts, &mut steps)?;
    }
    Ok(counts)
}

// Makes a workbook of a definition, and compares.
fn try_draft<G: Ledger>(
    alloc: Global,
    draft: &Draft,
    random: &mut Random,
    counts: &mut Counts,
    steps: &mut Steps<G>,
) -> Result<(), Fail> {
    match started(alloc, draft.definition.as_slice())? {
        Some(mut engine) => try_engine(alloc, &mut engine, draft, random, counts, steps),
        None => {
            counts.refuse();
            Ok(())
        }
    }
}

// Compares at four times, between random changes.
fn try_engine<G: Ledger>(
    alloc: Global,
    engine: &mut Engine,
    draft: &Draft,
    random: &mut Random,
    counts: &mut Counts,
    steps: &mut Steps<G>,
) -> Result<(), Fail> {
    let schema = schema(alloc, draft.formulas.as_slice())?;
    for _ in 0..4u32 {
        change_some(alloc, engine, random)?;
        compared(alloc, engine, &schema, counts, steps)?;
    }
    Ok(())
}
