// Random runs.
use crate::comparing::{is_same_end, is_same_state};
use crate::counts::Counts;
use crate::drawing::{arguments, caller};
use crate::rules::Rules;
use crate::sheet::{Sheet, start_sheet};
use plain_meaning::Stop;
use plain_procedures::act;
use sheet_books::Procedure;
use sheet_meaning::Caller;
use sheet_procs::ProcedureRefusal;
use sheet_values::{NoMemory, Set, Steps, Values};
use std::alloc::Global;
use std::sync::ledger::Ledger;
use test_language_words::Trouble;
use test_procs_calls::{Called, Filled, workbook};
use test_state::Random;

/// What is called on each workbook, in order.
const CALLS: [&str; 7] = [
    "grow", "first", "second", "third", "first", "second", "third",
];

// A run by the plain program.
fn run_plainly(
    alloc: Global,
    sheet: &mut Sheet,
    procedure: &Procedure,
    object: Option<u64>,
    arguments: &Values,
) -> Result<Values, Stop> {
    let caller = Caller {
        object,
        operator: object.is_none(),
    };
    act(
        alloc,
        &sheet.schema,
        &procedure.allow,
        procedure.body.as_slice(),
        caller,
        arguments.as_slice(),
        &mut sheet.book,
    )
}

// Compares a run with what the plain program came to.
fn compare(
    alloc: Global,
    filled: &Filled,
    sheet: &Sheet,
    end: Result<Set, ProcedureRefusal>,
    plain: &Result<Values, Stop>,
    counts: &mut Counts,
) -> Result<(), NoMemory> {
    let columns = filled.book().columns();
    counts.add_end(&end);
    let same_end = is_same_end(alloc, columns, end, plain)?;
    let same_state = is_same_state(filled.state(), columns.count(), &sheet.book.state);
    counts.add_run(same_end, same_state);
    Ok(())
}

// Calls the procedure of a name with random arguments.
fn play<G: Ledger>(
    alloc: Global,
    filled: &mut Filled,
    sheet: &mut Sheet,
    name: &str,
    random: &mut Random,
    counts: &mut Counts,
    steps: &mut Steps<G>,
) -> Result<(), NoMemory> {
    let book = filled.shared_book()?;
    let number = book.procedure_named(name.as_bytes()).unwrap_or(0);
    if number >= book.procedures() {
        counts.add_call();
        return Ok(());
    }
    let procedure = book.procedure(number);
    let object = caller(filled.state(), book.callers_column(), random);
    let arguments = arguments(alloc, filled.state(), &procedure.parameters, random)?;
    match filled.call(name.as_bytes(), object, &arguments, steps) {
        Called::Ran(end) => {
            let plain = run_plainly(alloc, sheet, procedure, object, &arguments);
            compare(alloc, filled, sheet, end, &plain, counts)
        }
        _ => {
            counts.add_call();
            Ok(())
        }
    }
}

// Calls what is called on a workbook.
fn play_calls<G: Ledger>(
    alloc: Global,
    filled: &mut Filled,
    sheet: &mut Sheet,
    random: &mut Random,
    counts: &mut Counts,
    steps: &mut Steps<G>,
) -> Result<(), NoMemory> {
    for name in CALLS {
        play(alloc, filled, sheet, name, random, counts, steps)?;
    }
    Ok(())
}

// Plays on the workbook of a text, beside the same one of the plain program.
fn play_beside<G: Ledger>(
    alloc: Global,
    filled: &mut Filled,
    text: &[u8],
    random: &mut Random,
    counts: &mut Counts,
    steps: &mut Steps<G>,
) -> Result<(), NoMemory> {
    match start_sheet(alloc, filled.book().columns(), text) {
        Ok(mut sheet) => play_calls(alloc, filled, &mut sheet, random, counts, steps),
        Err(Trouble::NoMemory) => Err(NoMemory),
        Err(_) => {
            counts.add_text();
            Ok(())
        }
    }
}

// Plays on the random workbook of a seed.
fn play_seed<G: Ledger>(
    alloc: Global,
    seed: u64,
    template: &[u8],
    rules: &Rules,
    counts: &mut Counts,
    steps: &mut Steps<G>,
) -> Result<(), NoMemory> {
    let mut random = Random::new(seed);
    let text = rules.written(alloc, template, &mut random)?;
    match workbook(alloc, text.as_slice())? {
        Some(mut filled) => play_beside(
            alloc,
            &mut filled,
            text.as_slice(),
            &mut random,
            counts,
            steps,
        ),
        None => {
            counts.add_text();
            Ok(())
        }
    }
}

/// Plays on random workbooks until there are so many runs, or that many workbooks.
pub fn play_all<G: Ledger>(
    alloc: Global,
    count: u64,
    template: &[u8],
    rules: &Rules,
    steps: &mut Steps<G>,
) -> Result<Counts, NoMemory> {
    let mut counts = Counts::new();
    for seed in 0..count {
        if counts.runs >= count {
            return Ok(counts);
        }
        play_seed(alloc, seed, template, rules, &mut counts, steps)?;
    }
    Ok(counts)
}
