// Cycles that come and go with the data, and faults beside them.
use crate::sheet::{
    OPERATOR, Procedure, Sheet, Told, View, add_line, called, counts, no_parts, open, opened,
    rested_on, schema, scope, seen, show, showing, with_part,
};
use plain_meaning::table_after;
use sheet_columns::{Column, Core};
use sheet_meaning::Schema;
use sheet_values::{Kind, Value};
use std::alloc::Global;
use test_language_replies::shown_text;
use test_language_words::{
    Scope, Trouble, new, no_statements, root_column, set, then, with_column, with_formula,
    with_objects, with_state,
};

fn turning(alloc: Global) -> Result<Schema, Trouble> {
    let column = Column::State {
        kind: Kind::Truth,
        one: true,
        first: Some(Value::Truth(false)),
    };
    let tree = with_column(alloc, root_column(alloc), "$", "S", column);
    let tree = with_formula(alloc, tree, "$", "A", Kind::Number);
    let tree = with_formula(alloc, tree, "$", "B", Kind::Number);
    let tree = with_formula(alloc, tree, "$", "F", Kind::Number);
    let texts = [
        ("A", "if S then B else 1"),
        ("B", "A"),
        ("F", "if true then 1 else F"),
    ];
    schema(alloc, tree, &texts)
}

// `procedure turn(s : truth) { set S = s }`
fn turn(alloc: Global, schema: &Schema) -> Result<Procedure, Trouble> {
    let at = scope(schema, "caller operator s");
    open(then(no_statements(alloc), set(alloc, at, 1, "S", "s")))
}

// A view that shows two columns of the root.
fn two(alloc: Global, schema: &Schema, first: &str, second: &str) -> Result<View, Trouble> {
    let at = scope(schema, "caller operator");
    let one = show(alloc, at, 1, first, first);
    let next = show(alloc, at, 2, second, second);
    let parts = with_part(with_part(no_parts(alloc), one), next);
    showing(Ok(Core::Truth(true)), parts)
}

fn turned(alloc: Global, sheet: &mut Sheet, to: bool) -> Told {
    let procedure = turn(alloc, sheet.schema);
    called(alloc, sheet, procedure, OPERATOR, &[Value::Truth(to)])
}

fn both(alloc: Global, sheet: &mut Sheet, first: &str, second: &str) -> Told {
    let view = two(alloc, sheet.schema, first, second);
    seen(alloc, sheet, view, OPERATOR, &[])
}

fn add_turns(alloc: Global, schema: &Schema, out: &mut String) -> Result<(), Trouble> {
    let mut sheet = opened(alloc, schema)?;
    add_line(out, "ab, S false", both(alloc, &mut sheet, "A", "B"))?;
    add_line(out, "kept results and live objects", counts(alloc, &sheet))?;
    add_line(out, "turn true", turned(alloc, &mut sheet, true))?;
    add_line(out, "kept results and live objects", counts(alloc, &sheet))?;
    add_line(out, "ba, S true", both(alloc, &mut sheet, "B", "A"))?;
    add_line(out, "ab, S true", both(alloc, &mut sheet, "A", "B"))?;
    let view = two(alloc, schema, "A", "B");
    let told = rested_on(alloc, &sheet, view, OPERATOR, &[]);
    add_line(out, "reads of ab, S true", told)?;
    add_line(out, "turn false", turned(alloc, &mut sheet, false))?;
    add_line(out, "A and F, S false", both(alloc, &mut sheet, "A", "F"))
}

// The outcomes of all formula cells after so many rounds; a cycle stands for none.
fn round_text(alloc: Global, sheet: &Sheet, count: usize) -> Told {
    let mut out = String::new(alloc);
    let mut is_first = true;
    let cells = table_after(alloc, sheet.schema, &sheet.book.state, count)?;
    for cell in &cells {
        let text = shown_text(alloc, &sheet.schema.columns, &cell.outcome)?;
        if !is_first {
            out.push_str(" ")?;
        }
        out.push_str(text.as_str())?;
        is_first = false;
    }
    Ok(out)
}

// The last of three is settled first.
fn chain(alloc: Global) -> Result<Schema, Trouble> {
    let tree = with_formula(alloc, root_column(alloc), "$", "C", Kind::Number);
    let tree = with_formula(alloc, tree, "$", "B", Kind::Number);
    let tree = with_formula(alloc, tree, "$", "A", Kind::Number);
    schema(alloc, tree, &[("C", "B + 1"), ("B", "A + 1"), ("A", "1")])
}

fn add_rounds(alloc: Global, schema: &Schema, out: &mut String) -> Result<(), Trouble> {
    let sheet = opened(alloc, schema)?;
    let told = round_text(alloc, &sheet, 0);
    add_line(out, "C, B, A before all rounds", told)?;
    add_line(out, "C, B, A after 1 round", round_text(alloc, &sheet, 1))?;
    add_line(out, "C, B, A after 2 rounds", round_text(alloc, &sheet, 2))?;
    add_line(out, "C, B, A after 3 rounds", round_text(alloc, &sheet, 3))?;
    add_line(out, "C, B, A after 4 rounds", round_text(alloc, &sheet, 4))
}

fn outranking(alloc: Global) -> Result<Schema, Trouble> {
    let tree = with_objects(alloc, root_column(alloc), "$", "T");
    let tree = with_state(alloc, tree, "T", "k", Kind::Number, true);
    let tree = with_formula(alloc, tree, "$", "Loop", Kind::Number);
    let tree = with_formula(alloc, tree, "$", "X", Kind::Number);
    let sum = "sum(if t.k = 0 then 1 / 0 else Loop : t in T)";
    schema(alloc, tree, &[("Loop", "Loop"), ("X", sum)])
}

// `procedure make(k : number) { new t = T set t.k = k }`
fn make(alloc: Global, at: Scope) -> Result<Procedure, Trouble> {
    let body = then(no_statements(alloc), new(alloc, at, 1, "T"));
    open(then(body, set(alloc, at, 2, "t.k", "k")))
}

/// Makes an object of the column T whose cell of k holds the number.
pub fn made(alloc: Global, sheet: &mut Sheet, number: i64) -> Told {
    let procedure = make(alloc, scope(sheet.schema, "caller operator k t"));
    called(alloc, sheet, procedure, OPERATOR, &[Value::Number(number)])
}

/// What the column shows, as the one slot of a view.
pub fn one(alloc: Global, sheet: &mut Sheet, title: &str) -> Told {
    let at = scope(sheet.schema, "caller operator");
    let parts = with_part(no_parts(alloc), show(alloc, at, 1, title, title));
    let view = showing(Ok(Core::Truth(true)), parts);
    seen(alloc, sheet, view, OPERATOR, &[])
}

fn add_outranking(alloc: Global, schema: &Schema, out: &mut String) -> Result<(), Trouble> {
    let mut sheet = opened(alloc, schema)?;
    add_line(out, "X, without a T", one(alloc, &mut sheet, "X"))?;
    add_line(out, "a T of 0", made(alloc, &mut sheet, 0))?;
    add_line(out, "X, with a T of 0", one(alloc, &mut sheet, "X"))?;
    add_line(out, "a T of 1", made(alloc, &mut sheet, 1))?;
    let told = one(alloc, &mut sheet, "X");
    add_line(out, "X, with a T of 0 and one of 1", told)
}

fn add_turning(alloc: Global, out: &mut String) -> Result<(), Trouble> {
    let schema = turning(alloc)?;
    add_turns(alloc, &schema, out)
}

fn add_chain(alloc: Global, out: &mut String) -> Result<(), Trouble> {
    let schema = chain(alloc)?;
    add_rounds(alloc, &schema, out)
}

fn add_faults(alloc: Global, out: &mut String) -> Result<(), Trouble> {
    let schema = outranking(alloc)?;
    add_outranking(alloc, &schema, out)
}

/// The lines of cycles.
pub fn add_lines(alloc: Global, out: &mut String) -> Result<(), Trouble> {
    add_turning(alloc, out)?;
    add_chain(alloc, out)?;
    add_faults(alloc, out)
}
