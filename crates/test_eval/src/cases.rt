// One case: the text of a formula, and what it comes to.
ghost use Rattle.std.specs.Prelude.{◌≡◌, ◌<◌};

use crate::printing::{outcome_text, reads_text};
use crate::shop::Shop;
use sheet_columns::{Core, Place, Reads};
use sheet_eval::evaluate;
use sheet_values::{NoMemory, Steps};
use std::alloc::Global;
use std::marker::Brand;
use std::sync::ledger::{Blank, Ledger};
use test_cases::{text_of, word_and_text};
use test_language_words::{Scope, Trouble, formula};

/// A case and what it comes to; an empty line is no case.
pub fn case(alloc: Global, shop: &Shop, line: &[u8]) -> Result<Option<String>, NoMemory> {
    if line.is_empty() {
        return Ok(None);
    }
    let (word, written) = word_and_text(line);
    let text = text_of(alloc, written)?;
    let text = str::from_utf8(text.as_slice()).unwrap_or("?");
    let told = told(alloc, shop, names(word), text)?;
    let case = str::from_utf8(line).unwrap_or("?");
    Ok(Some(format!(in alloc; "{case} => {told}")?))
}

// The variables of a case.
fn names(word: &[u8]) -> &'static str {
    if word == b"past_the_end".as_slice() {
        "it pair words lost"
    } else {
        "it pair words"
    }
}

// What a formula comes to and reads.
fn told(alloc: Global, shop: &Shop, names: &str, text: &str) -> Result<String, NoMemory> {
    let at = Scope {
        columns: &shop.columns,
        home: None,
        names,
    };
    match formula(alloc, at, text) {
        Ok(core) => evaluated::<Brand>(alloc, shop, &core, Blank::new(1)),
        Err(Trouble::NoMemory) => Err(NoMemory),
        Err(Trouble::Unreadable) => Ok(format!(in alloc; "no formula")?),
        Err(Trouble::UnknownName) => Ok(format!(in alloc; "unknown name")?),
    }
}

fn evaluated<G: Ledger>(
    alloc: Global,
    shop: &Shop,
    core: &Core,
    blank: Blank,
) -> Result<String, NoMemory>
    requires name { blank.name ≡ G.name }
    requires parts { blank.parts ≡ G.parts }
    requires some { 0 < blank.parts }
{
    let mut steps = Steps::<G>::start(blank);
    let mut reads = Reads::new(alloc);
    let outcome = evaluate(
        alloc,
        core,
        Place::Slot(7),
        &shop.variables,
        &shop.content,
        &mut reads,
        &mut steps,
    )?;
    let outcome = outcome_text(alloc, &shop.columns, &outcome)?;
    let reads = reads_text(alloc, &shop.columns, &reads)?;
    Ok(format!(in alloc; "{outcome}; {reads}")?)
}
