// What formulas come to, one by one, as the formula X of a workbook that has a formula Loop = Loop.
use crate::sheet::{Sheet, Told, add_line, opened, schema, scope};
use plain_meaning::{settled, value_of};
use sheet_columns::{Core, Place};
use sheet_meaning::Schema;
use sheet_values::Kind;
use std::alloc::Global;
use test_language_replies::shown_text;
use test_language_words::{Trouble, formula, root_column, with_formula};

const FAULTS: &[&str] = &[
    "1 / 0 + (9223372036854775807 + 1)",
    "(9223372036854775807 + 1) + 1 / 0",
    "1 / 0 + Loop",
    "Loop + 1 / 0",
    "false and 1 / 0 = 1",
    "true or Loop = 1",
    "true and 1 / 0 = 1",
    "1 / 0 = 1 and false",
    "1 / 0 = 1 and Loop = 1",
    "1 / 0 = 1 or Loop = 1",
    "Loop = 1 and false",
    "if true then 1 else Loop",
    "if false then 1 / 0 else 2",
    "if 1 / 0 = 1 then Loop else 2",
    "if Loop = 1 then 1 / 0 else 2",
    "{Loop : x in 1 | 1 / 0 = 1}",
    "{1 / 0 : x in 1 | Loop = 1}",
    "{1 / 0 : x in {1, 2} | x = 3}",
    "{x : x in Loop | 1 / 0 = 1}",
    "{Loop : x in 1 / 0}",
    "sum(if x = 1 then 1 / 0 else 9223372036854775807 + x : x in {1, 2})",
    "sum(if x = 2 then 1 / 0 else 9223372036854775807 + x : x in {1, 2})",
    "sum(if x = 1 then 1 / 0 else Loop : x in {1, 2})",
    "any(x in {1, 2} | x = 1 or 1 / (2 - x) = 1)",
];

const NUMBERS: &[&str] = &[
    "-7 / 2",
    "-7 % 2",
    "7 % -2",
    "(-9223372036854775807 - 1) % -1",
    "1 % 0",
    "6 * -7",
    "-9223372036854775807 - 1",
    "9223372036854775807 + 1",
    "(-9223372036854775807 - 1) / -1",
    "(-9223372036854775807 - 1) - 1",
    "-(-9223372036854775807 - 1)",
    "9223372036854775807 * 2",
    "1 / 0",
];

const SETS: &[&str] = &[
    "{}",
    "{2, 1}",
    "count({1, 1})",
    "{1, 2} union {3, 2}",
    "{1, 2} intersect {3, 2}",
    "{1, 2} except {3, 2}",
    "{1, 2} = {2, 1}",
    "1 != {}",
    "2 in {1, 2}",
    "{1, 2} in 2",
    "{} in 2",
    "\"Z\" < \"a\"",
    "2 <= 2",
    "2 > 2",
    "1 >= 2",
];

const PARTS: &[&str] = &[
    "1 + {}",
    "1 + {1, 2}",
    "not {}",
    "not false",
    "only({})",
    "only({1, 2})",
    "only(1)",
    "min({})",
    "min({1, 2})",
    "max({1, 2})",
    "{x + 1 : x in {1, 2} | x > 1}",
    "sum(5 : x in {1, 2})",
    "sum(x : x in {})",
    "any(x in {} | true)",
    "all(x in {} | false)",
    "any(x in {1, 2} | x = 2)",
    "all(x in {1, 2} | x = 2)",
    "\"ab\" & \"c\"",
];

fn case_schema(alloc: Global, text: &str) -> Result<Schema, Trouble> {
    let tree = with_formula(alloc, root_column(alloc), "$", "Loop", Kind::Number);
    let tree = with_formula(alloc, tree, "$", "X", Kind::Number);
    schema(alloc, tree, &[("Loop", "Loop"), ("X", text)])
}

fn result_text(alloc: Global, sheet: &Sheet, shown: &Core) -> Told {
    let (schema, state) = (sheet.schema, &sheet.book.state);
    let cells = settled(alloc, schema, state)?;
    let place = Place::Slot(1);
    let run = value_of(alloc, schema, state, cells.as_slice(), shown, place, &[])?;
    Ok(shown_text(alloc, &schema.columns, &run.outcome)?)
}

fn case_of(alloc: Global, schema: &Schema) -> Told {
    let sheet = opened(alloc, schema)?;
    let shown = formula(alloc, scope(schema, "caller operator"), "X")?;
    result_text(alloc, &sheet, &shown)
}

// What X comes to where this is its formula.
fn case_text(alloc: Global, text: &str) -> Told {
    let schema = case_schema(alloc, text)?;
    case_of(alloc, &schema)
}

fn add_cases(alloc: Global, out: &mut String, texts: &[&str]) -> Result<(), Trouble> {
    for text in texts {
        add_line(out, text, case_text(alloc, text))?;
    }
    Ok(())
}

// So many letters.
fn letters(alloc: Global, count: usize) -> Result<String, Trouble> {
    let mut letters = String::new(alloc);
    for _ in 0..count {
        letters.push_str("x")?;
    }
    Ok(letters)
}

fn add_texts(alloc: Global, out: &mut String) -> Result<(), Trouble> {
    let front = letters(alloc, 999)?;
    let text = format!(in alloc; "\"{front}\" & \"x\" = \"{front}x\"")?;
    add_line(
        out,
        "999 bytes & 1 byte = 1000 bytes",
        case_text(alloc, text.as_str()),
    )?;
    let text = format!(in alloc; "\"{front}\" & \"xx\"")?;
    add_line(out, "999 bytes & 2 bytes", case_text(alloc, text.as_str()))
}

/// The lines of formulas.
pub fn add_lines(alloc: Global, out: &mut String) -> Result<(), Trouble> {
    add_cases(alloc, out, FAULTS)?;
    add_cases(alloc, out, NUMBERS)?;
    add_cases(alloc, out, SETS)?;
    add_cases(alloc, out, PARTS)?;
    add_texts(alloc, out)
}
